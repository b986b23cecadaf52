// A phase of a reading as a number, and back.
ghost use Rattle.std.specs.Prelude.{◌≡◌};
ghost use Rattle.host.specs.States.{phase_number, phase_of, reading_of};

use rules::{Phase, Reading};

const NO_STATUS: usize = 0;

const MODEL_OPEN: usize = 1;

const MODEL_CLOSED: usize = 2;

const SAID_UNSATISFIABLE: usize = 3;

const SAID_UNKNOWN: usize = 4;

pub(crate) fn phase_number(phase: Phase) -> usize
    ensures { result ≡ phase_number phase }
{
    match phase {
        Phase::NoStatus => NO_STATUS,
        Phase::ModelOpen => MODEL_OPEN,
        Phase::ModelClosed => MODEL_CLOSED,
        Phase::SaidUnsatisfiable => SAID_UNSATISFIABLE,
        Phase::SaidUnknown => SAID_UNKNOWN,
    }
}

// Any number that no phase has is taken as no status.
pub(crate) fn phase_of(number: usize) -> Phase
    ensures { result ≡ phase_of number }
{
    if number == MODEL_OPEN {
        return Phase::ModelOpen;
    }
    if number == MODEL_CLOSED {
        return Phase::ModelClosed;
    }
    if number == SAID_UNSATISFIABLE {
        return Phase::SaidUnsatisfiable;
    }
    if number == SAID_UNKNOWN {
        return Phase::SaidUnknown;
    }
    Phase::NoStatus
}

pub(crate) fn reading_of(highest: usize, phase: usize) -> Reading
    ensures { result ≡ reading_of highest phase }
{
    Reading {
        highest,
        phase: phase_of(phase),
    }
}
