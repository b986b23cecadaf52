// The way back on an accepted file: judged first, then written.
ghost use Rattle.std.specs.Prelude.{◌≡◌, true, ◌≤◌, length, replicate};
ghost use Rattle.rules.specs.Numbering.{N};
ghost use Rattle.rules.specs.Rows.{words_for, packed, over_row};
ghost use Rattle.rules.specs.Walk.{CarriedOut};
ghost use Rattle.rules.specs.Readings.{assignment_of};
ghost use Rattle.rules.specs.Calls.{back_verdict, back_rows};
ghost use Rattle.schedule.specs.Written.{lent, fits};
ghost use Rattle.task.specs.Asked.{task_in, problem_asked, file_asked};

use crate::walking::schedule_verdict;
use crate::writing::{set_all, set_true};
use rows::{clear, words_for};
use rules::Refusal;
use task::indexed::Asked;
use task::problem::count_variables;

// The words that N bits need.
fn needed_words(asked: &Asked) -> usize
    ensures { result ≡ words_for (N (problem_asked asked.now)) }
{
    words_for(count_variables(asked))
}

// Enough is lent: words for both rows, and an entry for each step.
#[tactic(auto, unfolding(crate::specs::Written::fits))]
fn enough(asked: &Asked, entries: usize, given: usize, truth: usize) -> bool
    ensures { result ≡ fits (words_for (N (problem_asked asked.now))) given truth asked.now.horizon entries }
{
    let words = needed_words(asked);
    words <= given && words <= truth && asked.horizon <= entries
}

// All N variables given.
fn give_all(asked: &Asked, row: &mut [u64])
    requires { words_for (N (problem_asked asked.now)) ≤ length row.old }
    ensures { row.new ≡ over_row (packed (replicate (N (problem_asked asked.now)) true)) row.old }
{
    clear(row, needed_words(asked));
    set_all(row, count_variables(asked));
}

// Exactly the model's true variables true.
fn give_truth(asked: &Asked, entries: &[u32], row: &mut [u64])
    requires { (asked.now.horizon ≤ length entries.now) × CarriedOut (task_in asked.now.task) asked.now.horizon entries.now
        × (words_for (N (problem_asked asked.now)) ≤ length row.old) }
    ensures { row.new ≡ over_row (packed (assignment_of (problem_asked asked.now) entries.now)) row.old }
{
    clear(row, needed_words(asked));
    set_true(asked, entries, row);
}

// The way back on an accepted file at a horizon up to 64.
pub(crate) fn way_back_of(
    asked: &Asked,
    entries: &[u32],
    given: &mut [u64],
    truth: &mut [u64],
) -> Result<(), Refusal>
    ensures { (result ≡ back_verdict (file_asked asked.now) asked.now.horizon entries.now (lent given.old truth.old))
        × (lent given.new truth.new ≡ back_rows (file_asked asked.now) asked.now.horizon entries.now (lent given.old truth.old)) }
{
    if !enough(asked, entries.len(), given.len(), truth.len()) {
        return Err(Refusal::Room);
    }
    schedule_verdict(asked, entries)?;
    give_all(asked, given);
    give_truth(asked, entries, truth);
    Ok(())
}
