// Comments and status lines.
ghost use Rattle.std.specs.Prelude.{◌≡◌, max};
ghost use Rattle.rules.specs.Lines.{comment, status, awaits_status};
ghost use Rattle.output.specs.Line.{answer_to};

use crate::words;
use lent_bytes::texts;
use rules::{Phase, Reading, Refusal};

// A comment is skipped.
pub fn comment_line(reading: Reading, line: &[u8]) -> Result<Reading, Refusal>
    ensures { result ≡ answer_to comment reading line.now }
{
    if words::stands_alone(line) {
        return Ok(reading);
    }
    Err(Refusal::Grammar(1))
}

fn awaits_status(phase: Phase) -> bool
    ensures { result ≡ awaits_status phase }
{
    matches!(phase, Phase::NoStatus)
}

// A status line says how the model goes on.
pub fn status_line(reading: Reading, line: &[u8]) -> Result<Reading, Refusal>
    ensures { result ≡ answer_to status reading line.now }
{
    let highest = reading.highest;
    let phase = reading.phase;
    if !awaits_status(phase) {
        return Err(Refusal::OutOfPlace(0));
    }
    let satisfiable = b"s SATISFIABLE";
    let unsatisfiable = b"s UNSATISFIABLE";
    let unknown = b"s UNKNOWN";
    if texts::is_same(line, satisfiable) {
        return Ok(Reading {
            highest,
            phase: Phase::ModelOpen,
        });
    }
    if texts::is_same(line, unsatisfiable) {
        return Ok(Reading {
            highest,
            phase: Phase::SaidUnsatisfiable,
        });
    }
    if texts::is_same(line, unknown) {
        return Ok(Reading {
            highest,
            phase: Phase::SaidUnknown,
        });
    }
    let reached = texts::shared(line, satisfiable)
        .max(texts::shared(line, unsatisfiable))
        .max(texts::shared(line, unknown));
    Err(Refusal::Grammar(reached))
}
