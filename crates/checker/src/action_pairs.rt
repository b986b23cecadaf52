// The two lists of pairs that an action has.
ghost use Rattle.std.specs.Prelude.{◌≡◌, ◌<◌, ◌≤◌, length};
ghost use Rattle.rules.specs.Limits.{max_horizon};
ghost use Rattle.rules.specs.Task.{A as actionCount, pair, action};
ghost use Rattle.checker.specs.Order.{pairs_of, told_at};
ghost use Rattle.task.specs.Asked.{task_in};

use task::asked::{effect, effect_count, precondition, precondition_count};
use task::indexed::IndexedFile;
use task::numbering::{ValuePlace, nth_action};

// Which of the two lists.
#[derive(Clone, Copy)]
pub enum ActionPairs {
    Preconditions,
    Effects,
}

// How many pairs the list of an action has.
pub fn pair_count(task: &IndexedFile, list: ActionPairs, a: usize) -> usize
    requires { a < actionCount (task_in task.now) }
    ensures { result ≡ length (pairs_of list (action (task_in task.now) a)) }
{
    match list {
        ActionPairs::Preconditions => precondition_count(task, nth_action(a)),
        ActionPairs::Effects => effect_count(task, nth_action(a)),
    }
}

// Pair i of the list of an action.
pub fn nth_pair(task: &IndexedFile, list: ActionPairs, a: usize, i: usize) -> ValuePlace
    requires { (a < actionCount (task_in task.now)) × (i < length (pairs_of list (action (task_in task.now) a))) }
    ensures { (result.0 ≡ (pair (pairs_of list (action (task_in task.now) a)) i).variable)
        × (result.1 ≡ (pair (pairs_of list (action (task_in task.now) a)) i).value) }
{
    match list {
        ActionPairs::Preconditions => precondition(task, nth_action(a), i),
        ActionPairs::Effects => effect(task, nth_action(a), i),
    }
}

// At which step the pairs of an action that acts at a step are named to hold: its effects hold at the next.
pub fn told_at(list: ActionPairs, step: usize) -> usize
    requires { told_at list step ≤ max_horizon }
    ensures { result ≡ told_at list step }
{
    match list {
        ActionPairs::Preconditions => step,
        ActionPairs::Effects => step + 1,
    }
}
