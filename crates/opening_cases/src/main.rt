// The start of a reading of the folder example. A line has the horizon and how many words of each row are lent, then the first reading
// state, N and how far the reading is, or the refusal's number and detail, and both rows as they are left: words that are not written stay 7.
#![tactic(auto)]

ghost use Rattle.std.specs.Prelude.{◌≤◌};

use rules::{Reading, Refusal};
use showing::streams::Screen;
use showing::{print_phase, print_refusal, print_row};
use std::io;

const ROW_WORDS: usize = 8;

// A horizon that would be 1 if it were cut to 32 bits or fewer.
const WIDE: usize = 4294967297;

fn print_answer(rt: &impl Print, answer: Result<Reading, Refusal>) -> io::Result<()> {
    match answer {
        Ok(reading) => {
            let phase = reading.phase;
            print!(rt; " : next")?;
            print!(rt; " {}", reading.highest)?;
            print_phase(rt, " ", phase)
        }
        Err(why) => {
            print!(rt; " : refused")?;
            print!(rt; " ")?;
            print_refusal(rt, why)
        }
    }
}

// Both rows are lent with so many words.
fn begin(rt: &impl Print, file: &[u8], horizon: usize, given: usize, truth: usize) -> io::Result<()>
    requires { (given ≤ 8) × (truth ≤ 8) }
{
    let mut given_row = [7u64; ROW_WORDS];
    let mut truth_row = [7u64; ROW_WORDS];
    print!(rt; "k")?;
    print!(rt; " {horizon}")?;
    print!(rt; " :")?;
    print!(rt; " {given} {truth}")?;
    let answer = opening::start(
        file,
        horizon,
        &mut given_row[..given],
        &mut truth_row[..truth],
    );
    print_answer(rt, answer)?;
    print_row(rt, &given_row)?;
    print_row(rt, &truth_row)?;
    println!(rt; "")
}

fn run(rt: &impl Print, file: &[u8]) -> io::Result<()> {
    // one word is needed: as many, one too few in either row, and more
    begin(rt, file, 1, 1, 1)?;
    begin(rt, file, 1, 0, 1)?;
    begin(rt, file, 1, 1, 0)?;
    begin(rt, file, 1, 2, 8)?;
    begin(rt, file, 0, 1, 1)?;
    // 64 variables, and 70
    begin(rt, file, 10, 1, 1)?;
    begin(rt, file, 11, 2, 1)?;
    begin(rt, file, 11, 2, 2)?;
    // the last horizon, and more; the horizon comes before the room
    begin(rt, file, 64, 7, 8)?;
    begin(rt, file, 64, 7, 6)?;
    begin(rt, file, 65, 8, 8)?;
    begin(rt, file, 65, 0, 0)?;
    begin(rt, file, WIDE, 8, 8)?;
    // a file that is refused comes first
    begin(rt, b"", 65, 0, 0)?;
    if 37 <= file.len() {
        begin(rt, &file[..37], 1, 8, 8)?;
    }
    Ok(())
}

fn main() {
    // what cannot be written is left out
    let _ = run(
        &Screen,
        b"\x10\x00\x02\x00\x12\x00\x02\x00\x14\x00\x02\x00\x16\x00\x10\x00\x02\x02\x00\x00\x01\x01\x01\x01\x00\x00\x00\x01\x02\x02\x00\x01\x01\x00\x00\x00\x01\x01",
    );
}
