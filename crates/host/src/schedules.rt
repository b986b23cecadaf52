// Schedules: the verdict on one, and the way back from one to both rows of bits.
ghost use Rattle.std.specs.Prelude.{◌≡◌};
ghost use Rattle.rules.specs.Answers.{answer, answer_to};
ghost use Rattle.rules.specs.Calls.{back_verdict, back_rows};
ghost use Rattle.schedule.specs.Checked.{checked_verdict};
ghost use Rattle.schedule.specs.Written.{lent};

use crate::answers::tell;

// Whether a schedule is good; refusals 1 to 8, 10 and 20 to 22.
#[unsafe(no_mangle)]
pub extern "C" fn wawrolen_check_schedule(
    file: &[u8],
    horizon: usize,
    entries: &[u32],
    detail: &mut usize,
) -> usize
    ensures { answer result detail.new ≡ answer_to (checked_verdict file.now horizon entries.now) }
{
    tell(schedule::schedule_checked(file, horizon, entries), detail)
}

// A good schedule becomes both rows, every needed word written; refusals 1 to 8, 10 and 20 to 22.
#[unsafe(no_mangle)]
pub extern "C" fn wawrolen_way_back(
    file: &[u8],
    horizon: usize,
    entries: &[u32],
    given: &mut [u64],
    truth: &mut [u64],
    detail: &mut usize,
) -> usize
    ensures detail_after { answer result detail.new
        ≡ answer_to (back_verdict file.now horizon entries.now (lent given.old truth.old)) }
    ensures truth_after { lent given.new truth.new
        ≡ back_rows file.now horizon entries.now (lent given.old truth.old) }
{
    tell(
        schedule::way_back(file, horizon, entries, given, truth),
        detail,
    )
}
