// Lines of places that follow each other: the values of a variable that stay at a step, and the preconditions or effects of an action there; as
// many as there are and as there is surely room for.
ghost use Rattle.std.specs.Prelude.{◌≡◌, ◌+◌, ◌-◌, ◌≤◌, ◌<◌, length};
ghost use Rattle.rules.specs.Task.{A as actionCount, action};
ghost use Rattle.formula.specs.declared.place.Place.{Place};
ghost use Rattle.formula.specs.InFamily.{place_number};
ghost use Rattle.lines.specs.AtPlace.{RoomFor, PairRoomFor};
ghost use Rattle.lines.specs.Given.{Noted};
ghost use Rattle.parts.specs.Runs.{PutPart};
ghost use Rattle.task.specs.Asked.{task_in, file_asked};

use crate::single::{LINE_ROOM, PAIR_ROOM, Part};
use lines::clauses::{put_effect, put_precondition};
use lines::stays::{note_given, put_noted};
use task::asked::size;
use task::index::{effects_before, preconditions_before};
use task::indexed::{Asked, IndexedFile};
use task::limits::MAX_ACTIONS;

// The values of x from v on, by what was noted.
fn put_values(
    asked: &Asked,
    s: usize,
    x: usize,
    v: usize,
    given: &[Option<u8>],
    out: &mut [u8],
    at: usize,
) -> Part
    requires { Noted (task_in asked.now.task) x (actionCount (task_in asked.now.task)) given.now
        × RoomFor (file_asked asked.now) asked.now.horizon (Place.Stays s x v) at (length out.old) }
    ensures { PutPart (file_asked asked.now) asked.now.horizon (place_number (task_in asked.now.task) asked.now.horizon (Place.Stays s x v)) out.old at result.lines out.new result.end }
{
    let left = size(asked.task.file, x) - v;
    let mut end = at;
    for lines in 0..left {
        if out.len() - end < LINE_ROOM {
            return Part { lines, end };
        }
        end = put_noted(asked, s, x, v + lines, given, out, end);
    }
    Part { lines: left, end }
}

// The values of a variable that stay at a step, from v on.
pub fn put_stays(asked: &Asked, s: usize, x: usize, v: usize, out: &mut [u8], at: usize) -> Part
    requires { RoomFor (file_asked asked.now) asked.now.horizon (Place.Stays s x v) at (length out.old) }
    ensures { PutPart (file_asked asked.now) asked.now.horizon (place_number (task_in asked.now.task) asked.now.horizon (Place.Stays s x v)) out.old at result.lines out.new result.end }
{
    let mut given = [None; MAX_ACTIONS];
    note_given(&asked.task, x, &mut given);
    put_values(asked, s, x, v, &given, out, at)
}

// How many preconditions action a has. Not `task::asked::precondition_count`: with it the clause program takes 0.067 s for the largest formula, with
// the index 0.060 s.
fn preconditions_of(task: &IndexedFile, a: usize) -> usize
    requires { a < actionCount (task_in task.now) }
    ensures { result ≡ length (action (task_in task.now) a).preconditions }
{
    preconditions_before(task, a + 1) - preconditions_before(task, a)
}

// The preconditions of an action at a step, from pair i on.
pub fn put_preconditions(
    asked: &Asked,
    s: usize,
    a: usize,
    i: usize,
    out: &mut [u8],
    at: usize,
) -> Part
    requires { PairRoomFor (file_asked asked.now) asked.now.horizon (Place.Precondition s a i) at (length out.old) }
    ensures { PutPart (file_asked asked.now) asked.now.horizon (place_number (task_in asked.now.task) asked.now.horizon (Place.Precondition s a i)) out.old at result.lines out.new result.end }
{
    let left = preconditions_of(&asked.task, a) - i;
    let mut end = at;
    for lines in 0..left {
        if out.len() - end < PAIR_ROOM {
            return Part { lines, end };
        }
        end = put_precondition(asked, s, a, i + lines, out, end);
    }
    Part { lines: left, end }
}

// How many effects action a has, by the index too.
fn effects_of(task: &IndexedFile, a: usize) -> usize
    requires { a < actionCount (task_in task.now) }
    ensures { result ≡ length (action (task_in task.now) a).effects }
{
    effects_before(task, a + 1) - effects_before(task, a)
}

// The effects of an action at a step, from pair i on. The same loop as for preconditions: one function for both would take an enum and two matches
// on it, and be no shorter.
pub fn put_effects(asked: &Asked, s: usize, a: usize, i: usize, out: &mut [u8], at: usize) -> Part
    requires { PairRoomFor (file_asked asked.now) asked.now.horizon (Place.Effect s a i) at (length out.old) }
    ensures { PutPart (file_asked asked.now) asked.now.horizon (place_number (task_in asked.now.task) asked.now.horizon (Place.Effect s a i)) out.old at result.lines out.new result.end }
{
    let left = effects_of(&asked.task, a) - i;
    let mut end = at;
    for lines in 0..left {
        if out.len() - end < PAIR_ROOM {
            return Part { lines, end };
        }
        end = put_effect(asked, s, a, i + lines, out, end);
    }
    Part { lines: left, end }
}
