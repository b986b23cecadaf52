// The line of the clause at a place.
ghost use Rattle.std.specs.Prelude.{◌+◌, ◌≤◌, length};
ghost use Rattle.formula.specs.declared.place.Place.{Place};
ghost use Rattle.digits.specs.Over.{Wrote};
ghost use Rattle.lines.specs.Written.{pair_room, line_room};
ghost use Rattle.lines.specs.AtPlace.{place_line, RoomFor, PairRoomFor};
ghost use Rattle.task.specs.Asked.{file_asked};

use crate::literals::{put_end, put_exclusion, put_implication, put_plus, put_single};
use crate::stays::put_stays;
use formula::numbers::{action_at, pair_at, value_at};
use formula::place::Place;
use task::asked::{effect, goal_pair, precondition, size, start_value};
use task::indexed::Asked;
use task::numbering::nth_action;

// The start value of a variable.
fn put_start(asked: &Asked, x: usize, out: &mut [u8], at: usize) -> usize
    requires { RoomFor (file_asked asked.now) asked.now.horizon (Place.Start x) at (length out.old) }
    ensures written { Wrote out.old at (place_line (file_asked asked.now) asked.now.horizon (Place.Start x)) out.new result }
    ensures within { result ≤ at + line_room }
{
    let v = start_value(asked.task.file, x);
    put_single(out, at, value_at(asked, 0, x, v))
}

// A goal pair.
fn put_goal(asked: &Asked, i: usize, out: &mut [u8], at: usize) -> usize
    requires { RoomFor (file_asked asked.now) asked.now.horizon (Place.Goal i) at (length out.old) }
    ensures written { Wrote out.old at (place_line (file_asked asked.now) asked.now.horizon (Place.Goal i)) out.new result }
    ensures within { result ≤ at + line_room }
{
    let pair = goal_pair(asked.task.file, i);
    put_single(out, at, pair_at(asked, asked.horizon, pair))
}

// All values of a variable at a step.
fn put_all_values(asked: &Asked, s: usize, x: usize, out: &mut [u8], at: usize) -> usize
    requires { RoomFor (file_asked asked.now) asked.now.horizon (Place.AllValues s x) at (length out.old) }
    ensures written { Wrote out.old at (place_line (file_asked asked.now) asked.now.horizon (Place.AllValues s x)) out.new result }
    ensures within { result ≤ at + line_room }
{
    let count = size(asked.task.file, x);
    let mut end = at;
    for v in 0..count {
        end = put_plus(out, end, value_at(asked, s, x, v));
    }
    put_end(out, end)
}

// Two values of a variable at a step.
fn put_two_values(
    asked: &Asked,
    s: usize,
    x: usize,
    v: usize,
    w: usize,
    out: &mut [u8],
    at: usize,
) -> usize
    requires { RoomFor (file_asked asked.now) asked.now.horizon (Place.TwoValues s x v w) at (length out.old) }
    ensures written { Wrote out.old at (place_line (file_asked asked.now) asked.now.horizon (Place.TwoValues s x v w)) out.new result }
    ensures within { result ≤ at + line_room }
{
    let first = value_at(asked, s, x, v);
    let second = value_at(asked, s, x, w);
    put_exclusion(out, at, first, second)
}

// A precondition at a step.
pub fn put_precondition(
    asked: &Asked,
    s: usize,
    a: usize,
    i: usize,
    out: &mut [u8],
    at: usize,
) -> usize
    requires { PairRoomFor (file_asked asked.now) asked.now.horizon (Place.Precondition s a i) at (length out.old) }
    ensures written { Wrote out.old at (place_line (file_asked asked.now) asked.now.horizon (Place.Precondition s a i)) out.new result }
    ensures within { result ≤ at + pair_room }
{
    let pair = precondition(&asked.task, nth_action(a), i);
    let first = action_at(asked, s, a);
    let second = pair_at(asked, s, pair);
    put_implication(out, at, first, second)
}

// An effect at a step.
pub fn put_effect(asked: &Asked, s: usize, a: usize, i: usize, out: &mut [u8], at: usize) -> usize
    requires { PairRoomFor (file_asked asked.now) asked.now.horizon (Place.Effect s a i) at (length out.old) }
    ensures written { Wrote out.old at (place_line (file_asked asked.now) asked.now.horizon (Place.Effect s a i)) out.new result }
    ensures within { result ≤ at + pair_room }
{
    let pair = effect(&asked.task, nth_action(a), i);
    let first = action_at(asked, s, a);
    let second = pair_at(asked, s + 1, pair);
    put_implication(out, at, first, second)
}

// Two actions at a step.
fn put_two_actions(asked: &Asked, s: usize, a: usize, b: usize, out: &mut [u8], at: usize) -> usize
    requires { RoomFor (file_asked asked.now) asked.now.horizon (Place.TwoActions s a b) at (length out.old) }
    ensures written { Wrote out.old at (place_line (file_asked asked.now) asked.now.horizon (Place.TwoActions s a b)) out.new result }
    ensures within { result ≤ at + line_room }
{
    let first = action_at(asked, s, a);
    let second = action_at(asked, s, b);
    put_exclusion(out, at, first, second)
}

// The line of the clause at a place.
pub fn put_clause(asked: &Asked, place: Place, out: &mut [u8], at: usize) -> usize
    requires { RoomFor (file_asked asked.now) asked.now.horizon place at (length out.old) }
    ensures written { Wrote out.old at (place_line (file_asked asked.now) asked.now.horizon place) out.new result }
    ensures within { result ≤ at + line_room }
{
    match place {
        Place::Start(x) => put_start(asked, x, out, at),
        Place::Goal(i) => put_goal(asked, i, out, at),
        Place::AllValues(s, x) => put_all_values(asked, s, x, out, at),
        Place::TwoValues(s, x, v, w) => put_two_values(asked, s, x, v, w, out, at),
        Place::Precondition(s, a, i) => put_precondition(asked, s, a, i, out, at),
        Place::Effect(s, a, i) => put_effect(asked, s, a, i, out, at),
        Place::Stays(s, x, v) => put_stays(asked, s, x, v, out, at),
        Place::TwoActions(s, a, b) => put_two_actions(asked, s, a, b, out, at),
    }
}
