// The input in parts. The first part has the horizon, the file's length, the file and the first of the solver lines, unless the input ends in it;
// each other part goes on with the lines.
ghost use Rattle.std.specs.Prelude.{◌≡◌, ◌+◌, ◌≤◌, min, length};
ghost use Rattle.rules.specs.File.{word16};
ghost use Rattle.rows.specs.Lent.{lent};
ghost use Rattle.output.specs.Feeding.{feed_leaves, finish_call};
ghost use Rattle.digits.specs.Over.{over};
ghost use Rattle.model.specs.Parts.{head_bytes, first_room, most_words, text_room, file_in, lines_in, words_needed, begun, end_text, last_text};

use lent_bytes::number_at;
use output::feeding;
use output::feeding::Feed;
use rules::{Reading, Refusal};
use task::problem::MAX_HORIZON;

// The bytes before the file: the horizon and the file's length.
const HEAD_BYTES: usize = 3;

// The first part's room: the longest file that two bytes can announce.
pub const FIRST_ROOM: usize = HEAD_BYTES + 65535;

// The words of a row for the most variables that a formula has, 99,328.
pub const ROW_WORDS: usize = 1552;

// Room for whatever is printed: 64 numbers and the LF behind each.
pub const TEXT_ROOM: usize = 1344;

const BYTE_VALUES: usize = 256;

// Where the file ends in the first part.
fn file_end(first: &[u8]) -> usize
    ensures value { result ≡ min (head_bytes + word16 first.now 1) (length first.now) }
    ensures announced { head_bytes + word16 first.now 1 ≤ first_room }
{
    let size = number_at(first, 1) + BYTE_VALUES * number_at(first, 2);
    (HEAD_BYTES + size).min(first.len())
}

// The file, or what is there of it.
fn file_in(first: &[u8]) -> &[u8]
    ensures { result.now ≡ file_in first.now }
{
    let end = file_end(first);
    let start = HEAD_BYTES.min(end);
    &first[start..end]
}

// What the first part has of the solver lines.
fn lines_in(first: &[u8]) -> &[u8]
    ensures lines { result.now ≡ lines_in first.now }
    ensures announced { head_bytes + word16 first.now 1 ≤ first_room }
{
    let end = file_end(first);
    &first[end..]
}

// The words that each row needs; none where the file or the horizon is refused.
pub fn words_needed(first: &[u8]) -> usize
    ensures { (result ≡ words_needed first.now) × (result ≤ most_words) }
{
    match formula::calls::counts(file_in(first), number_at(first, 0)) {
        Err(_) => 0,
        Ok(counts) => rows::words_for(counts.variables),
    }
}

// The reading starts, and the lines of the first part are fed.
pub fn begin(first: &[u8], given: &mut [u64], truth: &mut [u64], line: &mut [u8]) -> Feed
    ensures fed { feed_leaves result given.new truth.new line.new ≡ begun first.now (lent given.old truth.old) line.old }
    ensures announced { head_bytes + word16 first.now 1 ≤ first_room }
{
    let answer = opening::start(file_in(first), number_at(first, 0), given, truth);
    feeding::take_bytes(
        Feed { answer, held: 0 },
        given,
        truth,
        line,
        lines_in(first),
    )
}

// The text of the schedule that a closed model states, or of the refusal at the end.
fn end_text(
    file: &[u8],
    horizon: usize,
    reading: Reading,
    given: &[u64],
    truth: &[u64],
    out: &mut [u8],
) -> usize
    requires { text_room ≤ length out.old }
    ensures written { out.new ≡ over out.old 0 (end_text file.now horizon reading.phase (lent given.now truth.now)) }
    ensures behind { result ≡ length (end_text file.now horizon reading.phase (lent given.now truth.now)) }
{
    let mut entries = [0u32; MAX_HORIZON];
    match checker::end::finish(file, horizon, reading, given, truth, &mut entries) {
        Err(why) => printing::refusal_line(out, why),
        Ok(()) => printing::schedule_text(out, &entries[..horizon]),
    }
}

// The reading ends, and what is to be printed is written over the front of `out`; how many bytes that are.
pub fn finish(
    first: &[u8],
    state: Feed,
    given: &mut [u64],
    truth: &mut [u64],
    line: &[u8],
    out: &mut [u8],
) -> usize
    requires { text_room ≤ length out.old }
    ensures written { out.new ≡ over out.old 0 (last_text first.now (finish_call (feed_leaves state given.old truth.old line.now))) }
    ensures behind { result ≡ length (last_text first.now (finish_call (feed_leaves state given.old truth.old line.now))) }
{
    match feeding::finish(state, given, truth, line) {
        Err(why) => printing::refusal_line(out, why),
        Ok(reading) => end_text(
            file_in(first),
            number_at(first, 0),
            reading,
            given,
            truth,
            out,
        ),
    }
}
