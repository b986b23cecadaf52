// The end of a reading: refusals 1 to 8 and 10, then 15, 18, 19 and 15 by the status, and 17; an accepted model becomes its schedule.
ghost use Rattle.std.specs.Prelude.{◌≡◌, ◌&&◌, ◌≤◌, leb};
ghost use Rattle.rules.specs.Answers.{judge};
ghost use Rattle.rules.specs.Numbering.{N};
ghost use Rattle.rules.specs.Lines.{rows_fit};
ghost use Rattle.rules.specs.Output.{ending, model_rules};
ghost use Rattle.rules.specs.Calls.{end_verdict, end_entries};
ghost use Rattle.checker.specs.End.{lent, end_with};
ghost use Rattle.task.specs.Asked.{problem_asked, file_asked};

use crate::schedule::write_schedule;
use crate::search::{all_clauses, lowest_unmet};
use rows::words_for;
use rules::{Phase, Reading, Refusal};
use task::filling::fill_index;
use task::index::INDEX_LENGTH;
use task::indexed::{Asked, IndexedFile};
use task::problem::{count_variables, problem_verdict};

// What the status alone decides.
fn status_verdict(phase: Phase) -> Result<(), Refusal>
    ensures { result ≡ ending phase }
{
    match phase {
        Phase::NoStatus => Err(Refusal::Unfinished),
        Phase::SaidUnsatisfiable => Err(Refusal::Unsatisfiable),
        Phase::SaidUnknown => Err(Refusal::Unknown),
        Phase::ModelOpen => Err(Refusal::Unfinished),
        Phase::ModelClosed => Ok(()),
    }
}

// Refusal 17.
fn model_verdict(asked: &Asked, given: &[u64], truth: &[u64]) -> Result<(), Refusal>
    ensures { result ≡ judge (model_rules (problem_asked asked.now) (lent given.now truth.now)) }
{
    let lowest = lowest_unmet(asked, given, truth);
    if lowest < all_clauses(asked) {
        return Err(Refusal::UnmetClause(lowest));
    }
    Ok(())
}

// There is room for the rows and the entries.
#[tactic(auto, unfolding(rules::specs::Lines::rows_fit))]
fn room_fits(asked: &Asked, given: &[u64], truth: &[u64], room: usize) -> bool
    ensures { result ≡ (rows_fit (N (problem_asked asked.now)) (lent given.now truth.now) && leb asked.now.horizon room) }
{
    let words = words_for(count_variables(asked));
    words <= given.len() && words <= truth.len() && asked.horizon <= room
}

// All refusals that follow an accepted file and horizon, in their order.
fn end_verdict(
    asked: &Asked,
    phase: Phase,
    given: &[u64],
    truth: &[u64],
    room: usize,
) -> Result<(), Refusal>
    ensures { result ≡ end_with (file_asked asked.now) asked.now.horizon phase (lent given.now truth.now) room }
{
    if !room_fits(asked, given, truth, room) {
        return Err(Refusal::Room);
    }
    status_verdict(phase)?;
    model_verdict(asked, given, truth)
}

// The end of a reading: the verdict, and in the first entries the schedule that an accepted model states.
pub fn finish(
    file: &[u8],
    horizon: usize,
    reading: Reading,
    given: &[u64],
    truth: &[u64],
    entries: &mut [u32],
) -> Result<(), Refusal>
    ensures value { result ≡ end_verdict file.now horizon reading.phase (lent given.now truth.now) entries.old }
    ensures entries_after { entries.new ≡ end_entries file.now horizon reading.phase (lent given.now truth.now) entries.old }
{
    problem_verdict(file, horizon)?;
    let mut index = [0u16; INDEX_LENGTH];
    fill_index(file, &mut index);
    let phase = reading.phase;
    let task = IndexedFile {
        file,
        index: &index,
    };
    let asked = Asked { task, horizon };
    end_verdict(&asked, phase, given, truth, entries.len())?;
    write_schedule(&asked, given, truth, entries);
    Ok(())
}
