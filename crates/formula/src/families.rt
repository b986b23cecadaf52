// The families: at how many steps each has clauses, how many at a step and in all; C.
ghost use Rattle.std.specs.Prelude.{◌≡◌, ◌≤◌, ◌<◌};
ghost use Rattle.rules.specs.Limits.{max_horizon};
ghost use Rattle.rules.specs.Families.{C};
ghost use Rattle.task.specs.Families.{number_of_family};
ghost use Rattle.formula.specs.InFamily.{steps_of, width_of, count_of};
ghost use Rattle.task.specs.Asked.{task_in, problem_asked};

use pairs::pairs_below;
use task::asked::{goals, variables};
use task::family::{FAMILIES, Family};
use task::index::{actions, effects_before, preconditions_before, value_pairs_before, values};
use task::indexed::{Asked, IndexedFile};

// At how many steps a family has clauses.
#[tactic(auto, unfolding(crate::specs::InFamily::steps_of))]
fn steps(horizon: usize, family: Family) -> usize
    requires { horizon ≤ max_horizon }
    ensures { result ≡ steps_of horizon (number_of_family family) }
{
    match family {
        Family::StartValues => 1,
        Family::GoalPairs => 1,
        Family::AllValues => horizon + 1,
        Family::TwoValues => horizon + 1,
        Family::Preconditions => horizon,
        Family::Effects => horizon,
        Family::ValuesStay => horizon,
        Family::TwoActions => horizon,
    }
}

// How many clauses a family has at a step.
#[tactic(auto, unfolding(crate::specs::InFamily::width_of))]
pub fn width(task: &IndexedFile, family: Family) -> usize
    ensures { result ≡ width_of (task_in task.now) (number_of_family family) }
{
    match family {
        Family::StartValues => variables(task.file),
        Family::GoalPairs => goals(task.file),
        Family::AllValues => variables(task.file),
        Family::TwoValues => value_pairs_before(task, variables(task.file)),
        Family::Preconditions => preconditions_before(task, actions(task)),
        Family::Effects => effects_before(task, actions(task)),
        Family::ValuesStay => values(task),
        Family::TwoActions => pairs_below(actions(task)),
    }
}

// How many clauses a family has.
pub fn count_of(asked: &Asked, family: Family) -> usize
    ensures { result ≡ count_of (task_in asked.now.task) asked.now.horizon (number_of_family family) }
{
    steps(asked.horizon, family) * width(&asked.task, family)
}

// C.
pub fn count_clauses(asked: &Asked) -> usize
    ensures { result ≡ C (problem_asked asked.now) }
{
    let mut sum = 0;
    for family in FAMILIES {
        sum += count_of(asked, family);
    }
    sum
}
