// The model program: a horizon byte, the length of a task file in two bytes, the file and solver lines on standard input; the entries of the
// schedule that the model states, one a line, or one line `refused N D`, on standard output. All that it does here is to move bytes.
#![tactic(auto)]

mod parts;

ghost use Rattle.std.specs.Prelude.{◌≡◌, ◌≤◌, length};
ghost use Rattle.output.specs.Feeding.{line_room, feed_leaves};
ghost use Rattle.model.specs.Parts.{text_room, words_needed, FedSome, Ended, Answered};

use output::feeding;
use output::feeding::{Feed, LINE_ROOM};
use parts::{FIRST_ROOM, ROW_WORDS, TEXT_ROOM};

// Standard input, by its number. By the kit's `io`, where a read that fails is the end: so the functions here promise what they do without an error.
const STDIN_FILENO: i32 = 0;

// Standard output, by its number.
const STDOUT_FILENO: i32 = 1;

// More parts than any input has.
const MOST_PARTS: usize = 18446744073709551615;

// The parts behind the first are read and fed.
fn take_parts(state: Feed, given: &mut [u64], truth: &mut [u64], line: &mut [u8]) -> Feed
    ensures { FedSome (feed_leaves state given.old truth.old line.old) (feed_leaves result given.new truth.new line.new) }
{
    let mut part = io::large_buffer();
    let mut fed = state;
    for _ in 0..MOST_PARTS {
        let n = io::read_full(STDIN_FILENO, &mut part);
        if n == 0 {
            return fed;
        }
        fed = feeding::take_bytes(fed, given, truth, line, &part[..n]);
    }
    fed
}

// The same, and then the end: what is to be printed is written over the front of `out`.
fn answer_parts(
    first: &[u8],
    begun: Feed,
    given: &mut [u64],
    truth: &mut [u64],
    line: &mut [u8],
    out: &mut [u8],
) -> usize
    requires { text_room ≤ length out.old }
    ensures { Ended first.now (feed_leaves begun given.old truth.old line.old) out.old out.new result }
{
    let fed = take_parts(begun, given, truth, line);
    parts::finish(first, fed, given, truth, line, out)
}

// What is to be printed is written over the front of `out`; how many bytes that are. Parts are read only behind a first part that is full.
fn answer(
    first: &[u8],
    given: &mut [u64],
    truth: &mut [u64],
    line: &mut [u8],
    out: &mut [u8],
) -> usize
    requires rows { (length given.old ≡ words_needed first.now) × (length truth.old ≡ words_needed first.now) }
    requires rooms { (line_room ≤ length line.old) × (text_room ≤ length out.old) }
    ensures { Answered first.now out.old out.new result }
{
    let begun = parts::begin(first, given, truth, line);
    if first.len() < FIRST_ROOM {
        return parts::finish(first, begun, given, truth, line, out);
    }
    answer_parts(first, begun, given, truth, line, out)
}

fn main() {
    let mut first = [0u8; FIRST_ROOM];
    let mut given = [0u64; ROW_WORDS];
    let mut truth = [0u64; ROW_WORDS];
    let mut line = [0u8; LINE_ROOM];
    let mut out = [0u8; TEXT_ROOM];
    let n = io::read_full(STDIN_FILENO, &mut first);
    let words = parts::words_needed(&first[..n]);
    let end = answer(
        &first[..n],
        &mut given[..words],
        &mut truth[..words],
        &mut line,
        &mut out,
    );
    io::write_all(STDOUT_FILENO, &out[..end]);
}
