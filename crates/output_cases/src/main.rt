// Runs many cases of the reader of solver output, and prints its answers one a line.
//
// A line "! N G T" begins anew: N variables, no status, G and T the first words of the rows of given and of true variables, the others 0.
// A line "? N K" reads what follows it, up to the LF before the next such line, as a whole output of N variables, fed in pieces of K bytes.
// Any other line is read as a line of solver output, by the reading state that the lines before it left; a refused line leaves it. Where
// it begins with "~" the line is what stands behind, with an LF for each other "~".
// An answer is "next" and how far the reading is, or "refused", number and detail; then the first words of both rows.
#![tactic(auto)]

ghost use Rattle.std.specs.Prelude.{◌≡◌, ◌<◌, ◌≤◌, length, drop, IfOk};

use lent_bytes::words::line_end;
use output::feeding;
use output::feeding::LINE_ROOM;
use rules::{Phase, Reading, Refusal};
use showing::streams::Screen;
use showing::{print_phase, print_refusal};
use std::io::Result;

// Standard input, by its number.
const STDIN_FILENO: i32 = 0;

const ROW_WORDS: usize = 32;

const MARK: u8 = b'~';

// ---- printing

fn first_word(row: &[u64]) -> u64 {
    row.first().copied().unwrap_or(0)
}

fn print_answer(
    rt: &impl Print,
    answer: std::result::Result<Reading, Refusal>,
    given: &[u64],
    truth: &[u64],
) -> Result<()> {
    match answer {
        Ok(reading) => {
            let phase = reading.phase;
            print_phase(rt, "next ", phase)?;
        }
        Err(why) => {
            print!(rt; "refused")?;
            print!(rt; " ")?;
            print_refusal(rt, why)?;
        }
    }
    println!(rt; " {} {}", first_word(given), first_word(truth))
}

// ---- reading the cases

fn is_command(input: &[u8], at: usize) -> bool {
    matches!(input.get(at), Some(b'!' | b'?'))
}

// The LF before the next command, or the end.
fn block_end(input: &[u8], from: usize) -> usize
    requires { from ≤ length input.now }
    ensures { (from ≤ result) × (result ≤ length input.now) }
{
    let mut end = line_end(input, from);
    // a `while`: what is read says where the next line ends
    while end < input.len() && !is_command(input, end + 1) {
        end = line_end(input, end + 1);
    }
    end
}

// What stands behind `at`, found at once: `skip` would walk to it.
fn behind(input: &[u8], at: usize) -> &[u8]
    ensures { result.now ≡ drop at input.now }
{
    if input.len() < at {
        return &input[input.len()..];
    }
    &input[at..]
}

// The number that stands behind `at`, cut off where it grows too large.
fn number_behind(input: &[u8], at: usize) -> u64 {
    let mut sum: u64 = 0;
    for b in behind(input, at) {
        let b = *b;
        if !b.is_ascii_digit() {
            return sum;
        }
        if sum <= 1844674407370955161 {
            sum = (10 * sum).wrapping_add(u64::from(b - b'0'));
        }
    }
    sum
}

// Behind the next space, or the end.
fn next_word(input: &[u8], at: usize) -> usize {
    match behind(input, at).iter().position(|b| *b == b' ') {
        Some(many) => at + many + 1,
        None => input.len(),
    }
}

fn fill(row: &mut [u64], first: u64) {
    row.fill(0);
    if let Some(word) = row.first_mut() {
        *word = first;
    }
}

// A whole output in pieces; size 0 is all at once.
fn run_block(
    rt: &impl Print,
    highest: usize,
    size: usize,
    given: &mut [u64],
    truth: &mut [u64],
    line: &mut [u8],
    block: &[u8],
) -> Result<()> {
    let mut state = feeding::begin(Reading {
        highest,
        phase: Phase::NoStatus,
    });
    let most = if size == 0 { usize::MAX } else { size };
    for piece in block.chunks(most) {
        state = feeding::take_bytes(state, given, truth, line, piece);
    }
    let answer = feeding::finish(state, given, truth, line);
    print_answer(rt, answer, given, truth)
}

// What a command leaves: the reading state that it begins, and where the last line that it took ends.
#[derive(Clone, Copy)]
struct Begun {
    reading: Reading,
    end: usize,
}

fn run_command(
    rt: &impl Print,
    input: &[u8],
    at: usize,
    end: usize,
    given: &mut [u64],
    truth: &mut [u64],
    line: &mut [u8],
) -> Result<Begun>
    requires { (at < length input.now) × (at ≤ end) × (end ≤ length input.now) }
    ensures { IfOk result (λ begun. (at ≤ begun.end) × (begun.end ≤ length input.now)) }
{
    let first = next_word(input, at);
    let second = next_word(input, first);
    let third = next_word(input, second);
    let highest = number_behind(input, first) as usize;
    let reading = Reading {
        highest,
        phase: Phase::NoStatus,
    };
    if input[at] == b'!' {
        fill(given, number_behind(input, second));
        fill(truth, number_behind(input, third));
        return Ok(Begun { reading, end });
    }
    fill(given, 0);
    fill(truth, 0);
    if end == input.len() {
        return Ok(Begun { reading, end });
    }
    let from = end + 1;
    let last = block_end(input, from);
    let size = number_behind(input, second) as usize;
    run_block(rt, highest, size, given, truth, line, &input[from..last])?;
    Ok(Begun { reading, end: last })
}

fn run_line(
    rt: &impl Print,
    reading: Reading,
    given: &mut [u64],
    truth: &mut [u64],
    line: &[u8],
) -> Result<Reading> {
    let answer = output::read_line(reading, given, truth, line);
    print_answer(rt, answer, given, truth)?;
    let Ok(next) = answer else {
        return Ok(reading);
    };
    Ok(next)
}

// A text with an LF for each mark, as far as there is room; how many bytes it has.
fn with_lfs(text: &[u8], line: &mut [u8]) -> usize
    ensures { result ≤ length line.new }
{
    let many = text.len().min(line.len());
    line[..many].copy_from_slice(&text[..many]);
    for b in line[..many].iter_mut() {
        if *b == MARK {
            *b = b'\n';
        }
    }
    many
}

// A line as it stands, or what a marked one stands for.
fn run_case(
    rt: &impl Print,
    reading: Reading,
    given: &mut [u64],
    truth: &mut [u64],
    line: &mut [u8],
    text: &[u8],
) -> Result<Reading> {
    let Some((&MARK, marked)) = text.split_first() else {
        return run_line(rt, reading, given, truth, text);
    };
    let many = with_lfs(marked, line);
    run_line(rt, reading, given, truth, &line[..many])
}

fn run(
    rt: &impl Print,
    input: &[u8],
    given: &mut [u64],
    truth: &mut [u64],
    line: &mut [u8],
) -> Result<()> {
    let mut reading = Reading {
        highest: 0,
        phase: Phase::NoStatus,
    };
    let mut at = 0;
    // a `while`: what is read says where the next line begins
    while at < input.len() {
        let end = line_end(input, at);
        if is_command(input, at) {
            let begun = run_command(rt, input, at, end, given, truth, line)?;
            reading = begun.reading;
            at = begun.end + 1;
        } else {
            reading = run_case(rt, reading, given, truth, line, &input[at..end])?;
            at = end + 1;
        }
    }
    Ok(())
}

fn main() {
    // the kit's `io` fills the room in one call; by std's `Read` it would be a loop of reads
    let mut input = io::large_buffer();
    let mut given = [0u64; ROW_WORDS];
    let mut truth = [0u64; ROW_WORDS];
    let mut line = [0u8; LINE_ROOM];
    let n = io::read_full(STDIN_FILENO, &mut input);
    // what cannot be written is left out
    let _ = run(&Screen, &input[..n], &mut given, &mut truth, &mut line);
}
