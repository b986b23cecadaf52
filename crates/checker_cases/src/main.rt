// The end of a reading on models of the folder example and of two other tasks. A line shows the refusal's number and detail, or 0 0, and
// then the four entries that were lent: all 9 before the call. Four lines show how many models of all at a horizon are accepted, at two of them with all
// that can be left out.
#![tactic(auto)]

ghost use Rattle.std.specs.Prelude.{◌<◌, ◌≤◌};

use rules::{Phase, Reading, Refusal};
use showing::print_verdict;
use showing::streams::Screen;
use std::io;

const ALL: u64 = 18446744073709551615;

// The model of the schedule (1, 2) at horizon 2: true are 1 3 5 8 9 12 13 16.
const TAKE_AND_RUN: u64 = 39317;

const VARIABLES: usize = 16;

fn finish(
    rt: &impl Print,
    file: &[u8],
    horizon: usize,
    phase: Phase,
    given: u64,
    truth: u64,
) -> io::Result<()> {
    let mut entries = [9u32; 4];
    let reading = Reading { highest: 0, phase };
    let verdict = checker::end::finish(file, horizon, reading, &[given], &[truth], &mut entries);
    print_verdict(rt, verdict)?;
    for entry in &entries {
        print!(rt; " {entry}")?;
    }
    println!(rt; " ")
}

fn is_accepted(file: &[u8], horizon: usize, given: u64, truth: u64) -> bool {
    let mut entries = [9u32; 4];
    let reading = Reading {
        highest: 0,
        phase: Phase::ModelClosed,
    };
    let verdict = checker::end::finish(file, horizon, reading, &[given], &[truth], &mut entries);
    matches!(verdict, Ok(()))
}

// How many of the first models, by their row, are accepted.
fn count_accepted(rt: &impl Print, file: &[u8], horizon: usize, models: u64) -> io::Result<()> {
    let count = (0..models)
        .filter(|truth| is_accepted(file, horizon, ALL, *truth))
        .count();
    println!(rt; "{count} ")
}

// The same where a model may leave variables out: the first words of both rows, in all pairs.
fn count_partial(
    rt: &impl Print,
    file: &[u8],
    horizon: usize,
    words: u64,
    pairs: u64,
) -> io::Result<()>
    requires { 0 < words }
{
    let count = (0..pairs)
        .filter(|pair| is_accepted(file, horizon, *pair / words, *pair % words))
        .count();
    println!(rt; "{count} ")
}

fn model(rt: &impl Print, file: &[u8], horizon: usize, truth: u64) -> io::Result<()> {
    finish(rt, file, horizon, Phase::ModelClosed, ALL, truth)
}

// The model of P7 with each of its variables left out in turn: every one is the only true literal of some clause.
fn leave_out_each(rt: &impl Print, file: &[u8]) -> io::Result<()> {
    for place in 0..VARIABLES {
        finish(
            rt,
            file,
            2,
            Phase::ModelClosed,
            ALL ^ (1u64 << place),
            TAKE_AND_RUN,
        )?;
    }
    Ok(())
}

fn run(rt: &impl Print, file: &[u8]) -> io::Result<()> {
    // P7, and P8's four: (0,1,2) (1,0,2) (1,2,0) (1,2,1)
    model(rt, file, 2, TAKE_AND_RUN)?;
    model(rt, file, 3, 2516293)?;
    model(rt, file, 3, 2515349)?;
    model(rt, file, 3, 2398613)?;
    model(rt, file, 3, 2726293)?;
    // P6: at horizon 1 run is carried out, but nothing was taken; at horizon 0 the goal is unmet
    model(rt, file, 1, 613)?;
    model(rt, file, 0, 5)?;
    // of all models at a horizon: none at 1, one at 2
    count_accepted(rt, file, 1, 1024)?;
    count_accepted(rt, file, 2, 65536)?;
    // P12: 16 is false; then one clause of each other family is: 1 2 3 4 5 6 7
    model(rt, file, 2, 6549)?;
    model(rt, file, 2, 39316)?;
    model(rt, file, 2, 39189)?;
    model(rt, file, 2, 39381)?;
    model(rt, file, 2, 39349)?;
    model(rt, file, 2, 43413)?;
    model(rt, file, 2, 37253)?;
    leave_out_each(rt, file)?;
    // the other ends; no room; a horizon that is too high; no file
    finish(rt, file, 2, Phase::NoStatus, ALL, TAKE_AND_RUN)?;
    finish(rt, file, 2, Phase::ModelOpen, ALL, TAKE_AND_RUN)?;
    finish(rt, file, 2, Phase::SaidUnsatisfiable, ALL, TAKE_AND_RUN)?;
    finish(rt, file, 2, Phase::SaidUnknown, ALL, TAKE_AND_RUN)?;
    model(rt, file, 5, 0)?;
    model(rt, file, 11, 0)?;
    model(rt, file, 65, 0)?;
    finish(rt, b"", 2, Phase::ModelClosed, ALL, TAKE_AND_RUN)
}

// Family 8: two actions with no pairs. Both true; both named false, one of them left out, then both; and how many there are in all.
fn idle_actions(rt: &impl Print, file: &[u8]) -> io::Result<()> {
    model(rt, file, 1, 15)?;
    model(rt, file, 1, 9)?;
    finish(rt, file, 1, Phase::ModelClosed, 13, 9)?;
    finish(rt, file, 1, Phase::ModelClosed, 9, 9)?;
    count_partial(rt, file, 1, 16, 256)
}

// An action that changes nothing. It is true; it is left out, and its true bit counts for nothing; a value is left out; and how many there are in all.
fn still_action(rt: &impl Print, file: &[u8]) -> io::Result<()> {
    model(rt, file, 1, 13)?;
    finish(rt, file, 1, Phase::ModelClosed, 27, 9)?;
    finish(rt, file, 1, Phase::ModelClosed, 27, 13)?;
    finish(rt, file, 1, Phase::ModelClosed, 25, 9)?;
    count_partial(rt, file, 1, 32, 1024)
}

fn run_all(rt: &impl Print) -> io::Result<()> {
    run(
        rt,
        b"\x10\x00\x02\x00\x12\x00\x02\x00\x14\x00\x02\x00\x16\x00\x10\x00\x02\x02\x00\x00\x01\x01\x01\x01\x00\x00\x00\x01\x02\x02\x00\x01\x01\x00\x00\x00\x01\x01",
    )?;
    idle_actions(
        rt,
        b"\x10\x00\x01\x00\x11\x00\x01\x00\x12\x00\x00\x00\x12\x00\x04\x00\x01\x00\x00\x00\x00\x00",
    )?;
    still_action(
        rt,
        b"\x10\x00\x01\x00\x11\x00\x01\x00\x12\x00\x02\x00\x14\x00\x06\x00\x02\x00\x00\x00\x01\x01\x00\x00\x00\x00",
    )
}

fn main() {
    // what cannot be written is left out
    let _ = run_all(&Screen);
}
