// The index of an accepted file: where its numbers stand, and what they say.
ghost use Rattle.std.specs.Prelude.{◌≡◌, ◌≤◌, ◌<◌, length, get_or};
ghost use Rattle.rules.specs.Limits.{max_variables, max_actions};
ghost use Rattle.rules.specs.Task.{off, S, A as actionCount};
ghost use Rattle.rules.specs.Numbering.{stride};
ghost use Rattle.task.specs.Index.{action_place, value_pairs_before, preconditions_before, effects_before};
ghost use Rattle.task.specs.Asked.{task_in, file_in};

use crate::indexed::IndexedFile;
use reader::limits::{MAX_ACTIONS, MAX_VARIABLES};

// How many numbers a row has, where the rows of the actions begin, where their count stands, and the whole length.
pub const VARIABLE_WIDTH: usize = 2;

pub const ACTION_WIDTH: usize = 3;

pub const ACTIONS_AT: usize = VARIABLE_WIDTH * (MAX_VARIABLES + 1);

pub const COUNT_AT: usize = ACTIONS_AT + ACTION_WIDTH * (MAX_ACTIONS + 1);

pub const INDEX_LENGTH: usize = COUNT_AT + 1;

// The number at a place of an index: two bytes, so that an index takes little of a call's stack.
pub fn number_in(index: &[u16], at: usize) -> usize
    requires { at < length index.now }
    ensures { result ≡ get_or index.now at 0 }
{
    // `as`, since with `usize::from` the clause program was slower.
    index[at] as usize
}

// off(x), also for x = n.
pub fn offset(task: &IndexedFile, x: usize) -> usize
    requires { x ≤ max_variables }
    ensures { result ≡ off (task_in task.now) x }
{
    number_in(task.index, VARIABLE_WIDTH * x)
}

// The pairs of values of one variable, of the variables before x together.
pub fn value_pairs_before(task: &IndexedFile, x: usize) -> usize
    requires { x ≤ max_variables }
    ensures { result ≡ value_pairs_before (task_in task.now) x }
{
    number_in(task.index, VARIABLE_WIDTH * x + 1)
}

// S.
pub fn values(task: &IndexedFile) -> usize
    ensures { result ≡ S (task_in task.now) }
{
    number_in(task.index, VARIABLE_WIDTH * MAX_VARIABLES)
}

// A.
pub fn actions(task: &IndexedFile) -> usize
    ensures { result ≡ actionCount (task_in task.now) }
{
    number_in(task.index, COUNT_AT)
}

// How far apart the numbers of one thing are at two steps in a row: S + A.
pub fn step_width(task: &IndexedFile) -> usize
    ensures { result ≡ stride (task_in task.now) }
{
    values(task) + actions(task)
}

// The place in the file of action a's first byte; for a = A the file's end.
pub fn action_place(task: &IndexedFile, a: usize) -> usize
    requires { a ≤ max_actions }
    ensures { result ≡ action_place (file_in task.now) a }
{
    number_in(task.index, ACTIONS_AT + ACTION_WIDTH * a)
}

// The preconditions of the actions before a together.
pub fn preconditions_before(task: &IndexedFile, a: usize) -> usize
    requires { a ≤ max_actions }
    ensures { result ≡ preconditions_before (task_in task.now) a }
{
    number_in(task.index, ACTIONS_AT + ACTION_WIDTH * a + 1)
}

// The effects of the actions before a together.
pub fn effects_before(task: &IndexedFile, a: usize) -> usize
    requires { a ≤ max_actions }
    ensures { result ≡ effects_before (task_in task.now) a }
{
    number_in(task.index, ACTIONS_AT + ACTION_WIDTH * a + 2)
}
