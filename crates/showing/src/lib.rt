// What several of the programs that run stored cases show alike.
#![tactic(auto)]

pub mod streams;

ghost use Rattle.std.specs.Prelude.{◌≡◌};
ghost use Rattle.showing.specs.Names.{name_of};

use refusals::{detail_of, number_of};
use rules::{Phase, Refusal};
use std::io;

// Its number and its detail.
pub fn print_refusal(rt: &impl Print, why: Refusal) -> io::Result<()> {
    print!(rt; "{} {}", number_of(why), detail_of(why))
}

// Number and detail of the refusal, 0 and 0 at acceptance.
pub fn print_verdict(rt: &impl Print, verdict: Result<(), Refusal>) -> io::Result<()> {
    match verdict {
        Ok(()) => print!(rt; "{} {}", 0, 0),
        Err(why) => print_refusal(rt, why),
    }
}

// How far a reading of solver output is.
#[tactic(auto, unfolding(rules::specs::Text::ascii))]
pub fn name_of(phase: Phase) -> &'static str
    ensures { result.now ≡ name_of phase }
{
    match phase {
        Phase::NoStatus => "no-status",
        Phase::ModelOpen => "open",
        Phase::ModelClosed => "closed",
        Phase::SaidUnsatisfiable => "unsatisfiable",
        Phase::SaidUnknown => "unknown",
    }
}

// The longest piece that `print_phase` writes.
const PIECE: usize = 32;

// A text and the name of how far a reading is, in one piece.
pub fn print_phase(rt: &impl Print, before: &str, phase: Phase) -> io::Result<()> {
    let mut piece = [0u8; PIECE];
    let before = before.as_bytes();
    let name = name_of(phase).as_bytes();
    for (to, from) in piece.iter_mut().zip(before.iter().chain(name.iter())) {
        *to = *from;
    }
    let bytes = before.len().saturating_add(name.len()).min(PIECE);
    rt.write_all(&piece[..bytes])
}

// The words of a row, behind a colon.
pub fn print_row(rt: &impl Print, row: &[u64]) -> io::Result<()> {
    print!(rt; " :")?;
    for word in row {
        print!(rt; " {word}")?;
    }
    Ok(())
}
