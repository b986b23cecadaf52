// Walks of its own. Before each action a line says whether it applies, then the state that it finds; an action that does not apply
// is carried out all the same. A state is shown by the first unmet goal pair, the first four values, and how many values behind them
// are not 0.
#![tactic(auto)]

ghost use Rattle.std.specs.Prelude.{◌<◌, length};

use showing::streams::Screen;
use std::io;

const SHOWN: usize = 4;

// How many values behind those that are shown are not 0.
fn others(values: &[u8]) -> usize {
    values
        .iter()
        .skip(SHOWN)
        .filter(|value| **value != 0)
        .count()
}

fn print_state(rt: &impl Print, values: &[u8], goal: &[u8]) -> io::Result<()> {
    print!(rt; "{} ", walk::unmet(values, goal))?;
    for value in values.iter().take(SHOWN) {
        print!(rt; "{value} ")?;
    }
    println!(rt; "{} ", others(values))
}

// How many bytes the action takes that begins `rest`.
fn bytes(rest: &[u8]) -> usize
    requires { 1 < length rest.now }
    ensures { (1 < result) × (result < 1023) }
{
    2 + 2 * (usize::from(rest[0]) + usize::from(rest[1]))
}

fn walk_on(rt: &impl Print, body: &[u8], actions: &[u8], goal: &[u8]) -> io::Result<()> {
    let mut state = walk::start(body);
    let mut at = 0;
    // a `while`: each action says how long it is
    while at + 1 < actions.len() {
        let action = &actions[at..];
        if walk::applies(&state.values, action) {
            print!(rt; "applies ")?;
        } else {
            print!(rt; "does not apply ")?;
        }
        print_state(rt, &state.values, goal)?;
        state = walk::after(state, action);
        at += bytes(action);
    }
    print!(rt; "end ")?;
    print_state(rt, &state.values, goal)
}

fn run(rt: &impl Print) -> io::Result<()> {
    // the folder example: take and run, run alone, nothing
    walk_on(
        rt,
        b"\x00\x00",
        b"\x01\x01\x00\x00\x00\x01\x02\x02\x00\x01\x01\x00\x00\x00\x01\x01",
        b"\x01\x01",
    )?;
    walk_on(
        rt,
        b"\x00\x00",
        b"\x02\x02\x00\x01\x01\x00\x00\x00\x01\x01",
        b"\x01\x01",
    )?;
    walk_on(rt, b"\x00\x00", b"", b"\x01\x01")?;
    // no preconditions and no effects; an empty goal, and one of odd length
    walk_on(rt, b"\x03\x02\x01", b"\x00\x00", b"")?;
    walk_on(rt, b"\x03\x02\x01", b"\x00\x00", b"\x00\x03\x01")?;
    // the last of two effects on a variable; a goal pair beyond the first
    walk_on(
        rt,
        b"\x05\x06\x07\x08\x09",
        b"\x00\x02\x03\x00\x03\x01",
        b"\x00\x05\x01\x06\x03\x01\x04\x00",
    )?;
    // variables that no state has: they are 0, and stay so
    walk_on(
        rt,
        b"\x01",
        b"\x02\x01\x60\x00\xff\x00\xff\x07\x01\x00\x60\x01",
        b"\xff\x00\x60\x07",
    )?;
    // an action cut short: what is not there is 0
    walk_on(
        rt,
        b"\x04\x04\x04\x04\x04",
        b"\x00\x03\x01\x09",
        b"\x00\x00",
    )
}

fn main() {
    // what cannot be written is left out
    let _ = run(&Screen);
}
