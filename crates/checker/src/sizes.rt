// How many steps, items and clauses a family has.
ghost use Rattle.std.specs.Prelude.{◌≡◌, ◌<◌, ◌≤◌};
ghost use Rattle.rules.specs.Limits.{max_horizon};
ghost use Rattle.task.specs.Families.{number_of_family};
ghost use Rattle.checker.specs.Order.{steps_of, items_of, clauses_of, step_clauses};
ghost use Rattle.task.specs.Asked.{task_in};

use crate::action_pairs::{ActionPairs, pair_count};
use pairs::pairs_below;
use task::asked::{goals, size, variables};
use task::family::Family;
use task::index::{actions, effects_before, preconditions_before, value_pairs_before, values};
use task::indexed::IndexedFile;

// How many steps a family speaks of.
#[tactic(auto, unfolding(crate::specs::Order::steps_of))]
pub fn steps_of(horizon: usize, family: Family) -> usize
    requires { horizon ≤ max_horizon }
    ensures { result ≡ steps_of horizon (number_of_family family) }
{
    match family {
        Family::StartValues | Family::GoalPairs => 1,
        Family::AllValues | Family::TwoValues => horizon + 1,
        Family::Preconditions | Family::Effects | Family::ValuesStay | Family::TwoActions =>
            horizon,
    }
}

// How many items it has at each step.
#[tactic(auto, unfolding(crate::specs::Order::items_of))]
pub fn items_of(task: &IndexedFile, family: Family) -> usize
    ensures { result ≡ items_of (task_in task.now) (number_of_family family) }
{
    match family {
        Family::StartValues | Family::AllValues | Family::TwoValues | Family::ValuesStay => {
            variables(task.file)
        }
        Family::GoalPairs => goals(task.file),
        Family::Preconditions | Family::Effects => actions(task),
        Family::TwoActions => 1,
    }
}

// How many clauses an item has.
#[tactic(auto, unfolding(crate::specs::Order::clauses_of, crate::specs::Order::items_of))]
pub fn clauses_of(task: &IndexedFile, family: Family, i: usize) -> usize
    requires { i < items_of (task_in task.now) (number_of_family family) }
    ensures { result ≡ clauses_of (task_in task.now) (number_of_family family) i }
{
    match family {
        Family::StartValues | Family::GoalPairs | Family::AllValues => 1,
        Family::TwoValues => pairs_below(size(task.file, i)),
        Family::Preconditions => pair_count(task, ActionPairs::Preconditions, i),
        Family::Effects => pair_count(task, ActionPairs::Effects, i),
        Family::ValuesStay => size(task.file, i),
        Family::TwoActions => pairs_below(actions(task)),
    }
}

// How many clauses a step has.
pub fn step_clauses(task: &IndexedFile, family: Family) -> usize
    ensures { result ≡ step_clauses (task_in task.now) (number_of_family family) }
{
    match family {
        Family::StartValues | Family::AllValues => variables(task.file),
        Family::GoalPairs => goals(task.file),
        Family::TwoValues => value_pairs_before(task, variables(task.file)),
        Family::Preconditions => preconditions_before(task, actions(task)),
        Family::Effects => effects_before(task, actions(task)),
        Family::ValuesStay => values(task),
        Family::TwoActions => pairs_below(actions(task)),
    }
}
