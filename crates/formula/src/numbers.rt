// The formula numbers of a problem, each within its N.
ghost use Rattle.std.specs.Prelude.{◌≡◌, ◌≤◌, ◌<◌};
ghost use Rattle.rules.specs.Limits.{max_n};
ghost use Rattle.rules.specs.Task.{n, d, A as actionCount};
ghost use Rattle.rules.specs.Problem.{problem};
ghost use Rattle.rules.specs.Numbering.{value_number, action_number};
ghost use Rattle.task.specs.Asked.{task_in};

use task::indexed::Asked;
use task::numbering::{
    FormulaNumber, ValuePlace, action_number, nth_action, value_number, value_place,
};

// A variable and its value at step s.
pub fn pair_at(asked: &Asked, s: usize, place: ValuePlace) -> FormulaNumber
    requires { (s ≤ asked.now.horizon) × (place.0 < n (task_in asked.now.task)) × (place.1 < d (task_in asked.now.task) place.0) }
    ensures { (result.0 ≡ value_number (problem (task_in asked.now.task) asked.now.horizon) s place.0 place.1) × (result.0 ≤ max_n) }
{
    value_number(&asked.task, s, place)
}

// Value v of variable x at step s.
pub fn value_at(asked: &Asked, s: usize, x: usize, v: usize) -> FormulaNumber
    requires { (s ≤ asked.now.horizon) × (x < n (task_in asked.now.task)) × (v < d (task_in asked.now.task) x) }
    ensures { (result.0 ≡ value_number (problem (task_in asked.now.task) asked.now.horizon) s x v) × (result.0 ≤ max_n) }
{
    pair_at(asked, s, value_place(x, v))
}

// Action a at step s.
pub fn action_at(asked: &Asked, s: usize, a: usize) -> FormulaNumber
    requires { (s < asked.now.horizon) × (a < actionCount (task_in asked.now.task)) }
    ensures { (result.0 ≡ action_number (problem (task_in asked.now.task) asked.now.horizon) s a) × (result.0 ≤ max_n) }
{
    action_number(&asked.task, s, nth_action(a))
}
