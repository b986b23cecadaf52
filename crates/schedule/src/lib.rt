// Schedules: the verdict on one (refusals 20 to 22), and the way back from one to both rows of bits.
#![tactic(auto)]

mod back;
mod walking;
mod writing;

ghost use Rattle.std.specs.Prelude.{◌≡◌};
ghost use Rattle.rules.specs.Calls.{back_verdict, back_rows};
ghost use Rattle.schedule.specs.Checked.{checked_verdict};
ghost use Rattle.schedule.specs.Written.{lent};

use rules::Refusal;
use task::filling::fill_index;
use task::index::INDEX_LENGTH;
use task::indexed::{Asked, IndexedFile};
use task::problem::problem_verdict;

// Whether a schedule is good, without rows.
pub fn schedule_checked(file: &[u8], horizon: usize, entries: &[u32]) -> Result<(), Refusal>
    ensures { result ≡ checked_verdict file.now horizon entries.now }
{
    problem_verdict(file, horizon)?;
    if entries.len() < horizon {
        return Err(Refusal::Room);
    }
    let mut index = [0u16; INDEX_LENGTH];
    fill_index(file, &mut index);
    let task = IndexedFile {
        file,
        index: &index,
    };
    let asked = Asked { task, horizon };
    walking::schedule_verdict(&asked, entries)
}

// The way back: a good schedule becomes both rows, every needed word written; a refusal leaves all as found.
pub fn way_back(
    file: &[u8],
    horizon: usize,
    entries: &[u32],
    given: &mut [u64],
    truth: &mut [u64],
) -> Result<(), Refusal>
    ensures { (result ≡ back_verdict file.now horizon entries.now (lent given.old truth.old))
        × (lent given.new truth.new ≡ back_rows file.now horizon entries.now (lent given.old truth.old)) }
{
    problem_verdict(file, horizon)?;
    let mut index = [0u16; INDEX_LENGTH];
    fill_index(file, &mut index);
    let task = IndexedFile {
        file,
        index: &index,
    };
    let asked = Asked { task, horizon };
    back::way_back_of(&asked, entries, given, truth)
}
