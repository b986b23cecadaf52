// The lines of family 7: a value at the next step was there, or an action gave it. Which value each action gives a variable is noted once for
// all lines of the variable.
ghost use Rattle.std.specs.Prelude.{◌≡◌, ◌+◌, ◌≤◌, ◌<◌, length};
ghost use Rattle.rules.specs.Limits.{max_actions};
ghost use Rattle.rules.specs.Problem.{problem};
ghost use Rattle.rules.specs.Task.{n, d, A as actionCount, pair, action};
ghost use Rattle.rules.specs.Families.{supporters};
ghost use Rattle.digits.specs.Over.{Wrote};
ghost use Rattle.formula.specs.declared.place.Place.{Place};
ghost use Rattle.formula.specs.Front.{supporter};
ghost use Rattle.lines.specs.Written.{literals, literal_room, line_room, supporters_room};
ghost use Rattle.lines.specs.AtPlace.{place_line, RoomFor};
ghost use Rattle.lines.specs.Given.{sets_it, given_to, Noted};
ghost use Rattle.task.specs.Asked.{task_in, file_asked};

use crate::literals::{put_change, put_end, put_plus};
use formula::numbers::{action_at, value_at};
use task::asked::{effect, effect_count};
use task::index::actions;
use task::indexed::{Asked, IndexedFile};
use task::limits::MAX_ACTIONS;
use task::numbering::{ValuePlace, nth_action, value_of, variable_of};

// How many effects action a has.
fn effects_of(task: &IndexedFile, a: usize) -> usize
    requires { a < actionCount (task_in task.now) }
    ensures { result ≡ length (action (task_in task.now) a).effects }
{
    effect_count(task, nth_action(a))
}

// Effect i of action a.
fn effect_of(task: &IndexedFile, a: usize, i: usize) -> ValuePlace
    requires { (a < actionCount (task_in task.now)) × (i < length (action (task_in task.now) a).effects) }
    ensures { (result.0 ≡ (pair (action (task_in task.now) a).effects i).variable) × (result.1 ≡ (pair (action (task_in task.now) a).effects i).value) }
{
    effect(task, nth_action(a), i)
}

// Whether effect i of action a is of x.
fn sets(task: &IndexedFile, x: usize, a: usize, i: usize) -> bool
    requires { (a < actionCount (task_in task.now)) × (i < length (action (task_in task.now) a).effects) }
    ensures { result ≡ sets_it (task_in task.now) x a i }
{
    variable_of(effect_of(task, a, i)) == x
}

// The value of effect i of action a.
fn value_set(task: &IndexedFile, a: usize, i: usize) -> u8
    requires { (a < actionCount (task_in task.now)) × (i < length (action (task_in task.now) a).effects) }
    ensures { result ≡ (pair (action (task_in task.now) a).effects i).value }
{
    value_of(effect_of(task, a, i)) as u8
}

// The value that action a gives x, if any.
fn given_to(task: &IndexedFile, x: usize, a: usize) -> Option<u8>
    requires { a < actionCount (task_in task.now) }
    ensures { result ≡ given_to (task_in task.now) x a }
{
    // Not `find` and `map`: with them the clause program takes 0.063 s for the largest formula, with this loop 0.060 s.
    let count = effects_of(task, a);
    for i in 0..count {
        if sets(task, x, a, i) {
            return Some(value_set(task, a, i));
        }
    }
    None
}

// Notes the value that each action gives x.
pub fn note_given(task: &IndexedFile, x: usize, given: &mut [Option<u8>])
    requires { length given.old ≡ max_actions }
    ensures { Noted (task_in task.now) x (actionCount (task_in task.now)) given.new }
{
    let all = actions(task);
    for a in 0..all {
        given[a] = given_to(task, x, a);
    }
}

// The literal of action a, if it gives x the value v.
fn put_supporter(
    asked: &Asked,
    s: usize,
    x: usize,
    v: usize,
    a: usize,
    given: &[Option<u8>],
    out: &mut [u8],
    at: usize,
) -> usize
    requires { (s < asked.now.horizon) × (x < n (task_in asked.now.task)) × (v < d (task_in asked.now.task) x)
        × (a < actionCount (task_in asked.now.task)) × (a < length given.now) × Noted (task_in asked.now.task) x (actionCount (task_in asked.now.task)) given.now × (at + literal_room ≤ length out.old) }
    ensures written { Wrote out.old at (literals (supporter (problem (task_in asked.now.task) asked.now.horizon) s x v a)) out.new result }
    ensures within { result ≤ at + literal_room }
{
    if given[a] == Some(v as u8) {
        return put_plus(out, at, action_at(asked, s, a));
    }
    at
}

// The literals of all actions that give x the value v.
fn put_supporters(
    asked: &Asked,
    s: usize,
    x: usize,
    v: usize,
    given: &[Option<u8>],
    out: &mut [u8],
    at: usize,
) -> usize
    requires { (s < asked.now.horizon) × (x < n (task_in asked.now.task)) × (v < d (task_in asked.now.task) x)
        × Noted (task_in asked.now.task) x (actionCount (task_in asked.now.task)) given.now × (at + supporters_room ≤ length out.old) }
    ensures written { Wrote out.old at (literals (supporters (problem (task_in asked.now.task) asked.now.horizon) s x v)) out.new result }
    ensures within { result ≤ at + supporters_room }
{
    let all = actions(&asked.task);
    let mut end = at;
    for a in 0..all {
        end = put_supporter(asked, s, x, v, a, given, out, end);
    }
    end
}

// The line of a value that stays at a step, by what was noted.
pub fn put_noted(
    asked: &Asked,
    s: usize,
    x: usize,
    v: usize,
    given: &[Option<u8>],
    out: &mut [u8],
    at: usize,
) -> usize
    requires { Noted (task_in asked.now.task) x (actionCount (task_in asked.now.task)) given.now
        × RoomFor (file_asked asked.now) asked.now.horizon (Place.Stays s x v) at (length out.old) }
    ensures written { Wrote out.old at (place_line (file_asked asked.now) asked.now.horizon (Place.Stays s x v)) out.new result }
    ensures within { result ≤ at + line_room }
{
    let after = value_at(asked, s + 1, x, v);
    let before = value_at(asked, s, x, v);
    let middle = put_change(out, at, after, before);
    let end = put_supporters(asked, s, x, v, given, out, middle);
    put_end(out, end)
}

// The line of a value that stays at a step.
pub fn put_stays(asked: &Asked, s: usize, x: usize, v: usize, out: &mut [u8], at: usize) -> usize
    requires { RoomFor (file_asked asked.now) asked.now.horizon (Place.Stays s x v) at (length out.old) }
    ensures written { Wrote out.old at (place_line (file_asked asked.now) asked.now.horizon (Place.Stays s x v)) out.new result }
    ensures within { result ≤ at + line_room }
{
    let mut given = [None; MAX_ACTIONS];
    note_given(&asked.task, x, &mut given);
    put_noted(asked, s, x, v, &given, out, at)
}
