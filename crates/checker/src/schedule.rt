// The schedule that a model states.
ghost use Rattle.std.specs.Prelude.{◌≡◌, ◌++◌, ◌≤◌, length, drop};
ghost use Rattle.rules.specs.Limits.{max_horizon};
ghost use Rattle.rules.specs.Readings.{entry_of, schedule_of};
ghost use Rattle.task.specs.Numbers.{at_any_horizon};
ghost use Rattle.rules.specs.Truth.{model_in};
ghost use Rattle.rows.specs.Lent.{lent};
ghost use Rattle.task.specs.Asked.{file_in, problem_asked};

use crate::bits::{UNNAMED_IN_POSITIVE, first_action};
use crate::first_two::first_of_some;
use rows::count_set;
use task::index::actions;
use task::indexed::{Asked, IndexedFile};

// The entry of a step: one more than the number of the action that is named true there, 0 where there is none.
fn entry_at(task: &IndexedFile, given: &[u64], truth: &[u64], step: usize) -> u32
    requires { step ≤ max_horizon }
    ensures { result ≡ entry_of (at_any_horizon (file_in task.now)) (model_in (lent given.now truth.now)) step }
{
    let count = actions(task);
    if count == 0 {
        return 0;
    }
    let from = first_action(task, step);
    if count_set(given, truth, UNNAMED_IN_POSITIVE, from, count) == 0 {
        return 0;
    }
    let t = first_of_some(given, truth, UNNAMED_IN_POSITIVE, from, count);
    (t + 1) as u32
}

// The entries of all steps; those behind them stay.
pub fn write_schedule(asked: &Asked, given: &[u64], truth: &[u64], entries: &mut [u32])
    requires { asked.now.horizon ≤ length entries.old }
    ensures { entries.new ≡ schedule_of (problem_asked asked.now) (model_in (lent given.now truth.now)) ++ drop asked.now.horizon entries.old }
{
    for (step, entry) in entries[..asked.horizon].iter_mut().enumerate() {
        *entry = entry_at(&asked.task, given, truth, step);
    }
}
