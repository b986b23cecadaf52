// Schedules for the folder example, judged, and turned into rows. A line has the horizon and the entries, the verdict (0 0 is acceptance),
// and then, for a way back, its verdict and both rows as they are left: words that are not written stay 7.
#![tactic(auto)]

ghost use Rattle.std.specs.Prelude.{◌≤◌};

use showing::streams::Screen;
use showing::{print_row, print_verdict};
use std::io;

const ROW_WORDS: usize = 8;

// One more than the highest entry that the folder example knows.
const ENTRIES: u32 = 4;

fn print_entries(rt: &impl Print, horizon: usize, entries: &[u32]) -> io::Result<()> {
    print!(rt; "k")?;
    print!(rt; " {horizon}")?;
    print!(rt; " :")?;
    for entry in entries {
        print!(rt; " {entry}")?;
    }
    Ok(())
}

fn judge(rt: &impl Print, file: &[u8], horizon: usize, entries: &[u32]) -> io::Result<()> {
    print_entries(rt, horizon, entries)?;
    print!(rt; " :")?;
    print!(rt; " ")?;
    print_verdict(rt, schedule::schedule_checked(file, horizon, entries))?;
    println!(rt; "")
}

// Both rows are lent with so many words.
fn go_back(
    rt: &impl Print,
    file: &[u8],
    horizon: usize,
    entries: &[u32],
    given: usize,
    truth: usize,
) -> io::Result<()>
    requires { (given ≤ 8) × (truth ≤ 8) }
{
    let mut given_row = [7u64; ROW_WORDS];
    let mut truth_row = [7u64; ROW_WORDS];
    print_entries(rt, horizon, entries)?;
    print!(rt; " :")?;
    print!(rt; " ")?;
    print_verdict(rt, schedule::schedule_checked(file, horizon, entries))?;
    let verdict = schedule::way_back(
        file,
        horizon,
        entries,
        &mut given_row[..given],
        &mut truth_row[..truth],
    );
    print!(rt; " :")?;
    print!(rt; " ")?;
    print_verdict(rt, verdict)?;
    print_row(rt, &given_row)?;
    print_row(rt, &truth_row)?;
    println!(rt; "")
}

// The schedules of the first codes: each entry is one of four, the last of which no action has.
fn judge_all(rt: &impl Print, file: &[u8], horizon: usize, codes: u32) -> io::Result<()>
    requires { (horizon ≤ 3) × (codes ≤ 64) }
{
    for code in 0..codes {
        let entries = [code % ENTRIES, code / ENTRIES % ENTRIES, code / 16];
        judge(rt, file, horizon, &entries[..horizon])?;
    }
    Ok(())
}

fn run(rt: &impl Print, file: &[u8]) -> io::Result<()> {
    // every schedule of one, two and three entries
    judge_all(rt, file, 1, 4)?;
    judge_all(rt, file, 2, 16)?;
    judge_all(rt, file, 3, 64)?;
    // the one for two steps, with a word behind and without, an entry behind, and too little room
    let two = [1u32, 2];
    go_back(rt, file, 2, &two, 2, 2)?;
    go_back(rt, file, 2, &two, 1, 1)?;
    go_back(rt, file, 2, &two, 0, 1)?;
    go_back(rt, file, 2, &two, 1, 0)?;
    go_back(rt, file, 3, &two, 8, 8)?;
    let three = [1u32, 2, 9];
    go_back(rt, file, 2, &three, 1, 1)?;
    go_back(rt, file, 3, &three, 1, 1)?;
    // refused schedules leave the rows: 21, 22, 20, 20 before 21, an entry as wide as there is
    let alone = [2u32, 0];
    go_back(rt, file, 2, &alone, 1, 1)?;
    let short = [1u32, 0];
    go_back(rt, file, 2, &short, 1, 1)?;
    let unknown = [3u32, 0];
    go_back(rt, file, 2, &unknown, 1, 1)?;
    let later = [2u32, 3];
    go_back(rt, file, 2, &later, 1, 1)?;
    let wide = [1u32, 4294967295];
    go_back(rt, file, 2, &wide, 1, 1)?;
    // no step, the last horizon, and one more
    go_back(rt, file, 0, &two[..0], 1, 1)?;
    let mut most = [0u32; 65];
    most[0] = 1;
    most[63] = 2;
    go_back(rt, file, 64, &most, 7, 7)?;
    go_back(rt, file, 64, &most[..63], 7, 7)?;
    go_back(rt, file, 64, &most, 6, 7)?;
    go_back(rt, file, 65, &most, 8, 8)?;
    // a file that is refused comes first
    if 37 <= file.len() {
        go_back(rt, &file[..37], 65, &two, 0, 0)?;
    }
    Ok(())
}

fn main() {
    // what cannot be written is left out
    let _ = run(
        &Screen,
        b"\x10\x00\x02\x00\x12\x00\x02\x00\x14\x00\x02\x00\x16\x00\x10\x00\x02\x02\x00\x00\x01\x01\x01\x01\x00\x00\x00\x01\x02\x02\x00\x01\x01\x00\x00\x00\x01\x01",
    );
}
