// The numbers of a "v" line, tried from left to right in the row of given variables.
ghost use Rattle.std.specs.Prelude.{◌≡◌, false, cond, not, ◌&&◌, ◌≤◌, ◌+◌, length};
ghost use Rattle.rules.specs.Limits.{max_line};
ghost use Rattle.rules.specs.Rows.{words_for};
ghost use Rattle.rules.specs.Lines.{is_negative, awaits_numbers, numbers, kind_of};
ghost use Rattle.rules.specs.declared.Phase.TheVariants.{ModelOpen, ModelClosed};
ghost use Rattle.output.specs.Line.{lent, leaves, by_kind};
ghost use Rattle.output.specs.Trial.{written, piece_leaves, try_piece, trial_leaves, trial, stop_of, first_gap, number_pieces, rewritten};

use crate::words;
use crate::words::Number;
use rules::{Phase, Reading, Refusal};

// Why a piece is refused, and at which place the gap before it stands.
#[derive(Clone, Copy)]
pub struct Stopped {
    pub why: Refusal,
    pub gap: usize,
}

// A piece is judged, and the variable that it names is marked: whether the model is closed then.
fn take_piece(
    highest: usize,
    closed: bool,
    given: &mut [u64],
    piece: &[u8],
    at: usize,
) -> Result<bool, Refusal>
    requires { at ≤ max_line + 1 }
    ensures { piece_leaves result given.new ≡ try_piece highest given.old at closed piece.now }
{
    if piece.len() == 0 {
        return Ok(closed);
    }
    // A match, as the refusal is made of the place and of how far the word reaches.
    let number = match words::word_of(piece) {
        Ok(number) => number,
        Err(reached) => {
            return Err(Refusal::Grammar(at + reached));
        }
    };
    if closed {
        return Err(Refusal::OutOfPlace(at));
    }
    if highest < number.variable {
        return Err(Refusal::OverN(at));
    }
    if number.variable == 0 {
        return Ok(true);
    }
    if rows::is_set(given, number.variable) {
        return Err(Refusal::GivenBefore(at));
    }
    rows::set_bit(given, number.variable, true);
    Ok(false)
}

// The numbers of a line are tried: those before a refused one stay marked. Whether the model is closed then.
fn try_numbers(highest: usize, given: &mut [u64], line: &[u8]) -> Result<bool, Stopped>
    requires { length line.now ≤ max_line }
    ensures tried { trial_leaves result given.new ≡ trial highest given.old first_gap false (number_pieces line.now) }
    ensures within { stop_of result ≤ length line.now }
{
    let mut closed = false;
    let mut gap = 1;
    // A `while`: the gap jumps to where the word that was read ends.
    while gap < line.len() {
        let at = gap + 1;
        let end = lent_bytes::words::word_end(line, at);
        // Kept as a match: tried `map_err` and `?`, the proof of the early return did not close.
        match take_piece(highest, closed, given, &line[at..end], at) {
            Ok(after) => {
                closed = after;
            }
            Err(why) => {
                return Err(Stopped { why, gap });
            }
        }
        gap = end;
    }
    Ok(closed)
}

// The bit of the variable that a word names, if it names one, is written: its sign, or 0.
fn write_word(row: &mut [u64], word: &[u8], signs: bool)
    ensures { row.new ≡ written (signs && not (is_negative word.now)) row.old word.now }
{
    let Ok(Number { variable, negative }) = words::word_of(word) else {
        return;
    };
    if variable != 0 {
        rows::set_bit(row, variable, signs & !negative);
    }
}

// The numbers before the gap at `stop` are written once more: their signs, or 0 for each.
fn write_numbers(row: &mut [u64], line: &[u8], stop: usize, signs: bool)
    requires { stop ≤ length line.now }
    ensures { row.new ≡ rewritten signs stop row.old first_gap (number_pieces line.now) }
{
    let mut gap = 1;
    // A `while`: the gap jumps to where the word that was read ends.
    while gap < stop {
        let at = gap + 1;
        let end = lent_bytes::words::word_end(line, at);
        write_word(row, &line[at..end], signs);
        gap = end;
    }
}

fn awaits_numbers(phase: Phase) -> bool
    ensures { result ≡ awaits_numbers phase }
{
    matches!(phase, Phase::ModelOpen)
}

fn phase_of(closed: bool) -> Phase
    ensures { result ≡ cond closed ModelClosed ModelOpen }
{
    if closed {
        return Phase::ModelClosed;
    }
    Phase::ModelOpen
}

// A "v" line: its numbers are tried, and then stored, or what was marked is cleared again.
pub fn numbers_line(
    reading: Reading,
    given: &mut [u64],
    truth: &mut [u64],
    line: &[u8],
) -> Result<Reading, Refusal>
    requires { (words_for reading.highest ≤ length given.old) × (length line.now ≤ max_line) × (kind_of line.now ≡ numbers) }
    ensures { leaves result given.new truth.new ≡ by_kind numbers reading (lent given.old truth.old) line.now }
{
    let highest = reading.highest;
    let phase = reading.phase;
    if !awaits_numbers(phase) {
        return Err(Refusal::OutOfPlace(0));
    }
    if !words::stands_alone(line) {
        return Err(Refusal::Grammar(1));
    }
    match try_numbers(highest, given, line) {
        Err(stopped) => {
            write_numbers(given, line, stopped.gap, false);
            Err(stopped.why)
        }
        Ok(closed) => {
            write_numbers(truth, line, line.len(), true);
            let after = phase_of(closed);
            Ok(Reading {
                highest,
                phase: after,
            })
        }
    }
}
