// What both rows of a model say of a step.
ghost use Rattle.std.specs.Prelude.{◌≡◌, ◌<◌, ◌≤◌};
ghost use Rattle.rules.specs.Limits.{max_horizon};
ghost use Rattle.rules.specs.Task.{n, d, A as actionCount};
ghost use Rattle.rules.specs.Numbering.{value_number, action_number};
ghost use Rattle.task.specs.Numbers.{at_any_horizon};
ghost use Rattle.rows.specs.Lent.{lent};
ghost use Rattle.checker.specs.Order.{holds_at, acts_at};
ghost use Rattle.task.specs.Asked.{task_in, file_in};

use rows::counts_true;
use task::indexed::IndexedFile;
use task::numbering::{
    ValuePlace, action_number, nth_action, number_of, value_number, value_place,
};

// What a variable that is not named counts as in a positive literal and in a negative one, so that neither is true.
pub const UNNAMED_IN_POSITIVE: bool = false;

pub const UNNAMED_IN_NEGATIVE: bool = true;

// A variable counts as having a value at a step.
#[tactic(auto, unfolding(crate::specs::Order::holds_at))]
pub fn pair_holds(
    task: &IndexedFile,
    given: &[u64],
    truth: &[u64],
    unnamed: bool,
    step: usize,
    place: ValuePlace,
) -> bool
    requires { (step ≤ max_horizon) × (place.0 < n (task_in task.now)) × (place.1 < d (task_in task.now) place.0) }
    ensures { result ≡ holds_at unnamed (file_in task.now) (lent given.now truth.now) step place.0 place.1 }
{
    let number = number_of(value_number(task, step, place));
    counts_true(given, truth, unnamed, number)
}

// The same of a variable and one of its values.
pub fn value_holds(
    task: &IndexedFile,
    given: &[u64],
    truth: &[u64],
    unnamed: bool,
    step: usize,
    x: usize,
    v: usize,
) -> bool
    requires { (step ≤ max_horizon) × (x < n (task_in task.now)) × (v < d (task_in task.now) x) }
    ensures { result ≡ holds_at unnamed (file_in task.now) (lent given.now truth.now) step x v }
{
    pair_holds(task, given, truth, unnamed, step, value_place(x, v))
}

// An action counts as true at a step.
#[tactic(auto, unfolding(crate::specs::Order::acts_at))]
pub fn acts(
    task: &IndexedFile,
    given: &[u64],
    truth: &[u64],
    unnamed: bool,
    step: usize,
    a: usize,
) -> bool
    requires { (step ≤ max_horizon) × (a < actionCount (task_in task.now)) }
    ensures { result ≡ acts_at unnamed (file_in task.now) (lent given.now truth.now) step a }
{
    let number = number_of(action_number(task, step, nth_action(a)));
    counts_true(given, truth, unnamed, number)
}

// The number of a variable's first value at a step.
pub fn first_value(task: &IndexedFile, step: usize, x: usize) -> usize
    requires { (step ≤ max_horizon) × (x < n (task_in task.now)) }
    ensures { result ≡ value_number (at_any_horizon (file_in task.now)) step x 0 }
{
    number_of(value_number(task, step, value_place(x, 0)))
}

// The number of the first action at a step.
pub fn first_action(task: &IndexedFile, step: usize) -> usize
    requires { (step ≤ max_horizon) × (0 < actionCount (task_in task.now)) }
    ensures { result ≡ action_number (at_any_horizon (file_in task.now)) step 0 }
{
    number_of(action_number(task, step, nth_action(0)))
}
