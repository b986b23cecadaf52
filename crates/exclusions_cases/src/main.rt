// Lines of pairs in rows that cross a power of ten, and a number that ends in 0; the least and the greatest numbers; one pair, no line,
// and pairs from the middle on. Before and behind what is written two marks show how the lent room was.
#![tactic(auto)]

ghost use Rattle.std.specs.Prelude.{suc, ◌+◌, ◌≤◌, ◌<◌, length};
ghost use Rattle.rules.specs.Limits.{max_n};
ghost use Rattle.rules.specs.Counts.{pairs_below, number_of_pair};

use showing::streams::Screen;
use std::io;

const MARK: u8 = b'.';

const MARKS: usize = 2;

const ROOM: usize = 2048;

fn show(
    rt: &impl Print,
    base: usize,
    count: usize,
    first: usize,
    second: usize,
    lines: usize,
) -> io::Result<()>
    requires { (first < second) × (second < count) × (number_of_pair count first second + lines ≤ pairs_below count) × (base + count ≤ suc max_n) × (lines ≤ 100) }
{
    let mut out = [MARK; ROOM];
    let end = exclusions::put_exclusions(&mut out, MARKS, base, count, first, second, lines);
    rt.write_all(&out[..end + MARKS])?;
    rt.write_all(b"\n")
}

fn run(rt: &impl Print) -> io::Result<()> {
    // 1 to 5; 15 to 22
    show(rt, 1, 5, 0, 1, 10)?;
    show(rt, 15, 8, 0, 1, 28)?;
    // 97 to 103, 997 to 1003 and 9994 to 10006
    show(rt, 97, 7, 0, 1, 21)?;
    show(rt, 997, 7, 0, 1, 21)?;
    show(rt, 9994, 13, 0, 1, 78)?;
    // five digits, from the middle of a row to the middle of another; a row to its end; the end of the last row
    show(rt, 19995, 16, 3, 12, 30)?;
    show(rt, 19995, 16, 3, 5, 11)?;
    show(rt, 19995, 16, 13, 15, 2)?;
    // the greatest two numbers; no line
    show(rt, 99327, 2, 0, 1, 1)?;
    show(rt, 99327, 2, 0, 1, 0)
}

fn main() {
    // what cannot be written is left out
    let _ = run(&Screen);
}
