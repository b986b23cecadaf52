// The numbering. State variables with their values, actions and formula variables are three separate countings: a type each, with private
// fields, joined only by the functions here.
ghost use Rattle.std.specs.Prelude.{◌≡◌, ◌+◌, ◌*◌, ◌<◌, ◌≤◌};
ghost use Rattle.rules.specs.Limits.{max_values, max_actions, max_horizon};
ghost use Rattle.rules.specs.Task.{n, d, A as actionCount};
ghost use Rattle.rules.specs.Numbering.{value_number, action_number};
ghost use Rattle.task.specs.Numbers.{at_any_horizon, number_read};
ghost use Rattle.task.specs.Asked.{task_in, file_in};

use crate::index::{offset, step_width, values};
use crate::indexed::IndexedFile;

// A variable and one of its values.
#[derive(Clone, Copy, PartialEq, Eq)]
pub struct ValuePlace(usize, usize);

// An action, from 0.
#[derive(Clone, Copy)]
pub struct ActionNumber(usize);

// A formula variable, from 1.
#[derive(Clone, Copy)]
pub struct FormulaNumber(usize);

pub fn value_place(variable: usize, value: usize) -> ValuePlace
    ensures { (result.0 ≡ variable) × (result.1 ≡ value) }
{
    ValuePlace(variable, value)
}

pub fn variable_of(place: ValuePlace) -> usize
    ensures { result ≡ place.0 }
{
    place.0
}

pub fn value_of(place: ValuePlace) -> usize
    ensures { result ≡ place.1 }
{
    place.1
}

pub fn nth_action(a: usize) -> ActionNumber
    ensures { result.0 ≡ a }
{
    ActionNumber(a)
}

pub fn place_of_action(action: ActionNumber) -> usize
    ensures { result ≡ action.0 }
{
    action.0
}

pub fn number_of(formula: FormulaNumber) -> usize
    ensures { result ≡ formula.0 }
{
    formula.0
}

// A number in a step: so many steps of a width before it, and a place in its own.
fn numbered(step: usize, width: usize, place: usize) -> FormulaNumber
    requires { (step ≤ max_horizon) × (width ≤ max_values + max_actions) × (place ≤ width) }
    ensures { result.0 ≡ step * width + place + 1 }
{
    FormulaNumber(step * width + place + 1)
}

// Value v of variable x at a step, from 0; at every horizon the same.
pub fn value_number(task: &IndexedFile, step: usize, place: ValuePlace) -> FormulaNumber
    requires { (step ≤ max_horizon) × (place.0 < n (task_in task.now)) × (place.1 < d (task_in task.now) place.0) }
    ensures { result.0 ≡ value_number (at_any_horizon (file_in task.now)) step place.0 place.1 }
{
    numbered(step, step_width(task), offset(task, place.0) + place.1)
}

// Action a at a step, from 0; at every horizon the same.
pub fn action_number(task: &IndexedFile, step: usize, action: ActionNumber) -> FormulaNumber
    requires { (step ≤ max_horizon) × (action.0 < actionCount (task_in task.now)) }
    ensures { result.0 ≡ action_number (at_any_horizon (file_in task.now)) step action.0 }
{
    numbered(step, step_width(task), values(task) + action.0)
}

// A number that was read: a formula number if it is one of 1 to N.
#[tactic(auto, unfolding(crate::specs::Numbers::number_read))]
pub fn checked_number(highest: usize, number: usize) -> Option<FormulaNumber>
    ensures { result ≡ number_read highest number }
{
    (1..=highest)
        .contains(&number)
        .then_some(FormulaNumber(number))
}
