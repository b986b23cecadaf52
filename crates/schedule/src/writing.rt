// The bits of a schedule's model, written into a lent row one by one.
ghost use Rattle.std.specs.Prelude.{◌≡◌, true, ◌<◌, ◌≤◌, length};
ghost use Rattle.rules.specs.Limits.{max_horizon};
ghost use Rattle.rules.specs.Task.{n, d, A as actionCount};
ghost use Rattle.rules.specs.Numbering.{value_number};
ghost use Rattle.rules.specs.Rows.{with_variable};
ghost use Rattle.rules.specs.Walk.{CarriedOut};
ghost use Rattle.task.specs.Numbers.{at_any_horizon};
ghost use Rattle.schedule.specs.Written.{all_set, Inside, values_set, entry_set, step_set, all_true_set};
ghost use Rattle.task.specs.Asked.{task_in, file_in, file_asked};

use crate::walking::{after_entry, entry_at, start_state};
use rows::set_bit;
use task::asked::variables;
use task::indexed::{Asked, IndexedFile};
use task::numbering::{action_number, nth_action, number_of, value_number, value_place};

// The variables 1 to m.
pub(crate) fn set_all(row: &mut [u64], m: usize)
    ensures { row.new ≡ all_set m row.old }
{
    for i in 0..m {
        set_bit(row, i + 1, true);
    }
}

// One value of a variable at a step.
fn set_value(task: &IndexedFile, step: usize, x: usize, v: usize, row: &mut [u64])
    requires { (step ≤ max_horizon) × (x < n (task_in task.now)) × (v < d (task_in task.now) x) }
    ensures { row.new ≡ with_variable row.old (value_number (at_any_horizon (file_in task.now)) step x v) true }
{
    let number = value_number(task, step, value_place(x, v));
    set_bit(row, number_of(number), true);
}

// The values of a state at a step.
fn set_values(task: &IndexedFile, step: usize, values: &[u8], row: &mut [u64])
    requires { (step ≤ max_horizon) × Inside (task_in task.now) values.now }
    ensures { row.new ≡ values_set (at_any_horizon (file_in task.now)) step values.now (n (task_in task.now)) row.old }
{
    let count = variables(task.file);
    for (x, &value) in values[..count].iter().enumerate() {
        // `as`: with `usize::from` the proof of the loop's turn did not close
        set_value(task, step, x, value as usize, row);
    }
}

// The action of an entry at a step.
fn set_entry(task: &IndexedFile, step: usize, e: usize, row: &mut [u64])
    requires { (step ≤ max_horizon) × (e ≤ actionCount (task_in task.now)) }
    ensures { row.new ≡ entry_set (at_any_horizon (file_in task.now)) step e row.old }
{
    if e == 0 {
        return;
    }
    let number = action_number(task, step, nth_action(e - 1));
    set_bit(row, number_of(number), true);
}

// All that is true at a step before the last: the values of its state, and its action.
#[tactic(auto, unfolding(crate::specs::Written::step_set))]
fn set_step(task: &IndexedFile, step: usize, e: usize, values: &[u8], row: &mut [u64])
    requires { (step ≤ max_horizon) × (e ≤ actionCount (task_in task.now)) × Inside (task_in task.now) values.now }
    ensures { row.new ≡ step_set (at_any_horizon (file_in task.now)) step e values.now row.old }
{
    set_values(task, step, values, row);
    set_entry(task, step, e, row);
}

// All that is true in the model of a schedule that can be carried out.
pub(crate) fn set_true(asked: &Asked, entries: &[u32], row: &mut [u64])
    requires { (asked.now.horizon ≤ length entries.now) × CarriedOut (task_in asked.now.task) asked.now.horizon entries.now }
    ensures { row.new ≡ all_true_set (at_any_horizon (file_asked asked.now)) entries.now asked.now.horizon row.old }
{
    let mut state = start_state(asked.task.file);
    for s in 0..asked.horizon {
        let e = entry_at(entries, s);
        set_step(&asked.task, s, e, &state.values, row);
        state = after_entry(&asked.task, e, state);
    }
    set_values(&asked.task, asked.horizon, &state.values, row);
}
