// The reading of solver output: its start, one line, a whole output in pieces, and its end. A reading state is two numbers, the
// highest variable and a phase.
ghost use Rattle.std.specs.Prelude.{◌≡◌};
ghost use Rattle.rules.specs.Answers.{answer, answer_to};
ghost use Rattle.rules.specs.Lines.{read_line};
ghost use Rattle.rules.specs.Calls.{start_reading, end_verdict, end_entries};
ghost use Rattle.output.specs.Line.{lent};
ghost use Rattle.output.specs.Feeding.{feed_call, finish_call};
ghost use Rattle.host.specs.States.{phase_of, reading_of};
ghost use Rattle.host.specs.Cells.{highest_left, left, left_by, fed_left, fed_left_by, fed_so_far};

use crate::answers::{keep_highest, tell, tell_line};
use crate::states::{phase_of, reading_of};
use output::feeding::Feed;
use rules::Reading;

// The first reading state, with the words needed 0 in both rows; refusals 1 to 8 and 10.
#[unsafe(no_mangle)]
pub extern "C" fn wawrolen_start_reading(
    file: &[u8],
    horizon: usize,
    given: &mut [u64],
    truth: &mut [u64],
    highest: &mut usize,
    phase: &mut usize,
    detail: &mut usize,
) -> usize
    ensures truth_after { left result detail.new phase.new given.new truth.new
        ≡ left_by (start_reading file.now horizon (lent given.old truth.old)) phase.old }
    ensures highest_after { highest.new
        ≡ highest_left (start_reading file.now horizon (lent given.old truth.old)).answer highest.old }
{
    let started = opening::start(file, horizon, given, truth);
    keep_highest(started, highest);
    tell_line(started, phase, detail)
}

// One line without its LF; refusals 10 to 14.
#[unsafe(no_mangle)]
pub extern "C" fn wawrolen_read_line(
    highest: usize,
    phase: &mut usize,
    given: &mut [u64],
    truth: &mut [u64],
    line: &[u8],
    detail: &mut usize,
) -> usize
    ensures { left result detail.new phase.new given.new truth.new
        ≡ left_by (read_line (reading_of highest phase.old) (lent given.old truth.old) line.now) phase.old }
{
    let reading = reading_of(highest, *phase);
    tell_line(
        output::read_line(reading, given, truth, line),
        phase,
        detail,
    )
}

// The next bytes of a whole output: each line that ends is read, and what there is of the next one is held in lent bytes.
#[unsafe(no_mangle)]
pub extern "C" fn wawrolen_read_bytes(
    highest: usize,
    phase: &mut usize,
    held: &mut usize,
    given: &mut [u64],
    truth: &mut [u64],
    line: &mut [u8],
    bytes: &[u8],
    detail: &mut usize,
) -> usize
    ensures { fed_left result detail.new phase.new held.new given.new truth.new line.new
        ≡ fed_left_by (feed_call (fed_so_far highest phase.old held.old given.old truth.old line.old) bytes.now) phase.old }
{
    let so_far = Feed {
        answer: Ok(reading_of(highest, *phase)),
        held: *held,
    };
    let fed = output::feeding::take_bytes(so_far, given, truth, line, bytes);
    let answer = fed.answer;
    *held = fed.held;
    tell_line(answer, phase, detail)
}

// The end of a whole output: what is held of a last line without LF is a line too.
#[unsafe(no_mangle)]
pub extern "C" fn wawrolen_read_rest(
    highest: usize,
    phase: &mut usize,
    held: usize,
    given: &mut [u64],
    truth: &mut [u64],
    line: &[u8],
    detail: &mut usize,
) -> usize
    ensures { left result detail.new phase.new given.new truth.new
        ≡ left_by (finish_call (fed_so_far highest phase.old held given.old truth.old line.now)) phase.old }
{
    let so_far = Feed {
        answer: Ok(reading_of(highest, *phase)),
        held,
    };
    tell_line(
        output::feeding::finish(so_far, given, truth, line),
        phase,
        detail,
    )
}

// The end of a reading: an accepted model's schedule over the first entries; refusals 1 to 8, 10 and 15 to 19.
#[unsafe(no_mangle)]
pub extern "C" fn wawrolen_end_reading(
    file: &[u8],
    horizon: usize,
    phase: usize,
    given: &[u64],
    truth: &[u64],
    entries: &mut [u32],
    detail: &mut usize,
) -> usize
    ensures detail_after { answer result detail.new
        ≡ answer_to (end_verdict file.now horizon (phase_of phase) (lent given.now truth.now) entries.old) }
    ensures entries_after { entries.new
        ≡ end_entries file.now horizon (phase_of phase) (lent given.now truth.now) entries.old }
{
    // the end does not look at the highest variable of the state: N is the file's own
    let reading = Reading {
        highest: 0,
        phase: phase_of(phase),
    };
    tell(
        checker::end::finish(file, horizon, reading, given, truth, entries),
        detail,
    )
}
