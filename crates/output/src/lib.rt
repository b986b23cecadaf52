// The reader of solver output: one line at a time, from the reading state and two lent rows of bits, or a whole output in pieces.
#![tactic(auto)]

pub mod feeding;
mod numbers;
mod status;
mod words;

ghost use Rattle.std.specs.Prelude.{◌≡◌};
ghost use Rattle.rules.specs.Lines.{read_line};
ghost use Rattle.output.specs.Line.{lent, leaves, both_fit, started};

use rules::{Phase, Reading, Refusal};

const MAX_LINE: usize = 4096;

// Whether rows of these lengths have the words that `highest` variables need.
#[tactic(auto, unfolding(crate::specs::Line::both_fit))]
fn rows_fit(highest: usize, given: usize, truth: usize) -> bool
    ensures { result ≡ both_fit highest given truth }
{
    let words = rows::words_for(highest);
    words <= given && words <= truth
}

// A reading of up to `highest` variables starts: the words needed are set to 0 in both rows.
pub fn start(highest: usize, given: &mut [u64], truth: &mut [u64]) -> Result<Reading, Refusal>
    ensures { leaves result given.new truth.new ≡ started highest (lent given.old truth.old) }
{
    if !rows_fit(highest, given.len(), truth.len()) {
        return Err(Refusal::Room);
    }
    let words = rows::words_for(highest);
    rows::clear(given, words);
    rows::clear(truth, words);
    Ok(Reading {
        highest,
        phase: Phase::NoStatus,
    })
}

// One line without its LF: the next reading state, or a refusal, which leaves both rows as found.
pub fn read_line(
    reading: Reading,
    given: &mut [u64],
    truth: &mut [u64],
    line: &[u8],
) -> Result<Reading, Refusal>
    ensures { leaves result given.new truth.new ≡ read_line reading (lent given.old truth.old) line.now }
{
    if !rows_fit(reading.highest, given.len(), truth.len()) {
        return Err(Refusal::Room);
    }
    if MAX_LINE < line.len() {
        return Err(Refusal::Grammar(MAX_LINE));
    }
    let first = lent_bytes::byte_at(line, 0);
    if first == b'c' {
        return status::comment_line(reading, line);
    }
    if first == b's' {
        return status::status_line(reading, line);
    }
    if first == b'v' {
        return numbers::numbers_line(reading, given, truth, line);
    }
    Err(Refusal::Grammar(0))
}
