// The actions that give a variable a value: counted, and written as literals.
ghost use Rattle.std.specs.Prelude.{◌≡◌, ◌+◌, ◌≤◌, ◌<◌, ◌&&◌, eqb, length};
ghost use Rattle.rules.specs.Task.{A as actionCount, action};
ghost use Rattle.rules.specs.Problem.{problem};
ghost use Rattle.rules.specs.Families.{supporters};
ghost use Rattle.formula.specs.Front.{written, gives_by, is_given, supporter};
ghost use Rattle.task.specs.Asked.{task_in};

use crate::numbers::action_at;
use crate::written::put_plus;
use task::asked::{effect, effect_count};
use task::index::actions;
use task::indexed::{Asked, IndexedFile};
use task::numbering::{ValuePlace, nth_action, value_place};

// Whether a pair is x = v.
fn is_pair(pair: ValuePlace, x: usize, v: usize) -> bool
    ensures { result ≡ (eqb pair.0 x && eqb pair.1 v) }
{
    pair == value_place(x, v)
}

// Whether effect i of action a is x = v.
fn gives(task: &IndexedFile, a: usize, x: usize, v: usize, i: usize) -> bool
    requires { (a < actionCount (task_in task.now)) × (i < length (action (task_in task.now) a).effects) }
    ensures { result ≡ gives_by (task_in task.now) a x v i }
{
    is_pair(effect(task, nth_action(a), i), x, v)
}

// Whether action a has the effect x = v.
fn is_given(task: &IndexedFile, a: usize, x: usize, v: usize) -> bool
    requires { a < actionCount (task_in task.now) }
    ensures { result ≡ is_given (task_in task.now) a x v }
{
    (0..effect_count(task, nth_action(a))).any(|i| gives(task, a, x, v, i))
}

// How many actions have the effect x = v.
pub fn supporter_count(task: &IndexedFile, horizon: usize, s: usize, x: usize, v: usize) -> usize
    ensures { (result ≡ length (supporters (problem (task_in task.now) horizon) s x v)) × (result ≤ actionCount (task_in task.now)) }
{
    (0..actions(task))
        .filter(|a| is_given(task, *a, x, v))
        .count()
}

// Action a's literal, where it has the effect x = v; the place behind it.
fn put_supporter(
    asked: &Asked,
    s: usize,
    x: usize,
    v: usize,
    a: usize,
    out: &mut [i32],
    at: usize,
) -> usize
    requires { (s < asked.now.horizon) × (a < actionCount (task_in asked.now.task))
        × (at + length (supporter (problem (task_in asked.now.task) asked.now.horizon) s x v a) ≤ length out.old) }
    ensures { (out.new ≡ written out.old at (supporter (problem (task_in asked.now.task) asked.now.horizon) s x v a))
        × (result ≡ at + length (supporter (problem (task_in asked.now.task) asked.now.horizon) s x v a)) }
{
    if is_given(&asked.task, a, x, v) {
        put_plus(out, at, action_at(asked, s, a));
        return at + 1;
    }
    at
}

// The literals of all actions with the effect x = v, from a place on.
pub fn put_supporters(asked: &Asked, s: usize, x: usize, v: usize, out: &mut [i32], from: usize)
    requires { (s < asked.now.horizon)
        × (from + length (supporters (problem (task_in asked.now.task) asked.now.horizon) s x v) ≤ length out.old) }
    ensures { out.new ≡ written out.old from (supporters (problem (task_in asked.now.task) asked.now.horizon) s x v) }
{
    let all = actions(&asked.task);
    let mut at = from;
    for a in 0..all {
        at = put_supporter(asked, s, x, v, a, out, at);
    }
}
