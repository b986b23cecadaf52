// Family 7: a value that is not named false at the next step is named true at this one, or an action that is named true gives it.
ghost use Rattle.std.specs.Prelude.{◌≡◌, ◌+◌, ◌<◌, ◌≤◌, length};
ghost use Rattle.rules.specs.Counting.{first};
ghost use Rattle.rules.specs.Limits.{max_horizon};
ghost use Rattle.rules.specs.Task.{n, d, A as actionCount, action};
ghost use Rattle.rows.specs.Lent.{lent};
ghost use Rattle.checker.specs.Order.{is_unmet, clauses_of, Come, values_stay};
ghost use Rattle.checker.specs.Staying.{effect_is, gives_at, supported_at, changes_alone};
ghost use Rattle.task.specs.Asked.{task_in, file_in, file_asked};

use crate::action_pairs::{ActionPairs, nth_pair, pair_count};
use crate::bits::{UNNAMED_IN_NEGATIVE, UNNAMED_IN_POSITIVE, first_action, value_holds};
use rows::first_set;
use task::asked::size;
use task::index::actions;
use task::indexed::{Asked, IndexedFile};
use task::numbering::{value_of, variable_of};

// Effect i of an action is x = v.
#[tactic(auto, unfolding(crate::specs::Staying::effect_is))]
fn effect_is(task: &IndexedFile, a: usize, i: usize, x: usize, v: usize) -> bool
    requires { (a < actionCount (task_in task.now)) × (i < length (action (task_in task.now) a).effects) }
    ensures { result ≡ effect_is (file_in task.now) a x v i }
{
    let pair = nth_pair(task, ActionPairs::Effects, a, i);
    variable_of(pair) == x && value_of(pair) == v
}

// An action has the effect x = v.
fn gives(task: &IndexedFile, a: usize, x: usize, v: usize) -> bool
    requires { a < actionCount (task_in task.now) }
    ensures { result ≡ gives_at (file_in task.now) x v a }
{
    let count = pair_count(task, ActionPairs::Effects, a);
    for i in 0..count {
        if effect_is(task, a, i, x, v) {
            return true;
        }
    }
    false
}

// An action that is named true at a step gives x = v; only those are looked at.
fn supported(
    task: &IndexedFile,
    given: &[u64],
    truth: &[u64],
    step: usize,
    x: usize,
    v: usize,
) -> bool
    requires { step ≤ max_horizon }
    ensures { result ≡ supported_at (file_in task.now) (lent given.now truth.now) step x v }
{
    let count = actions(task);
    let mut a = 0;
    // A `while`: the action jumps behind the one that was found to be named true.
    while a < count {
        let from = first_action(task, step);
        let t = a + first_set(given, truth, UNNAMED_IN_POSITIVE, from + a, count - a);
        if count <= t {
            return false;
        }
        if gives(task, t, x, v) {
            return true;
        }
        a = t + 1;
    }
    false
}

// A value is not named false at the next step and not named true at this one, and no action that is named true gives it.
#[tactic(auto, unfolding(crate::specs::Staying::changes_alone))]
fn changes_alone(
    task: &IndexedFile,
    given: &[u64],
    truth: &[u64],
    step: usize,
    x: usize,
    v: usize,
) -> bool
    requires { (step + 1 ≤ max_horizon) × (x < n (task_in task.now)) × (v < d (task_in task.now) x) }
    ensures { result ≡ changes_alone (file_in task.now) (lent given.now truth.now) step x v }
{
    if !value_holds(task, given, truth, UNNAMED_IN_NEGATIVE, step + 1, x, v) {
        return false;
    }
    if value_holds(task, given, truth, UNNAMED_IN_POSITIVE, step, x, v) {
        return false;
    }
    !supported(task, given, truth, step, x, v)
}

// No value of a variable changes alone at a step.
pub fn stay_clauses(
    asked: &Asked,
    given: &[u64],
    truth: &[u64],
    step: usize,
    x: usize,
    at: usize,
) -> usize
    requires { Come (file_asked asked.now) asked.now.task.index.now (lent given.now truth.now) asked.now.horizon values_stay step x at }
    ensures { result ≡ first (at + clauses_of (task_in asked.now.task) values_stay x) (is_unmet (file_asked asked.now) asked.now.horizon (lent given.now truth.now)) }
{
    let values = size(asked.task.file, x);
    for v in 0..values {
        if changes_alone(&asked.task, given, truth, step, x, v) {
            return at + v;
        }
    }
    at + values
}
