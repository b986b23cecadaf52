// What an answer begins with, and what the numbers of a reading state stand for.
use rules::{Phase, Refusal};

// Number and detail of a refusal, 0 and 0 at acceptance; then what the call counts.
#[derive(Clone, Copy)]
pub struct Reply {
    pub number: usize,
    pub detail: usize,
    pub first: usize,
    pub second: usize,
}

pub fn counted(first: usize, second: usize) -> Reply {
    Reply {
        number: 0,
        detail: 0,
        first,
        second,
    }
}

// A refusal that stands beside what the call counts.
pub fn refused_beside(why: Refusal, first: usize, second: usize) -> Reply {
    Reply {
        number: refusals::number_of(why),
        detail: refusals::detail_of(why),
        first,
        second,
    }
}

pub fn refused(why: Refusal) -> Reply {
    refused_beside(why, 0, 0)
}

pub fn judged_beside(verdict: Result<(), Refusal>, first: usize, second: usize) -> Reply {
    match verdict {
        Ok(()) => counted(first, second),
        Err(why) => refused_beside(why, first, second),
    }
}

pub fn judged(verdict: Result<(), Refusal>) -> Reply {
    judged_beside(verdict, 0, 0)
}

pub fn phase_number(phase: Phase) -> usize {
    match phase {
        Phase::NoStatus => 0,
        Phase::ModelOpen => 1,
        Phase::ModelClosed => 2,
        Phase::SaidUnsatisfiable => 3,
        Phase::SaidUnknown => 4,
    }
}

// Any number is a phase: those not in use stand for no status.
pub fn phase_of(number: usize) -> Phase {
    match number {
        1 => Phase::ModelOpen,
        2 => Phase::ModelClosed,
        3 => Phase::SaidUnsatisfiable,
        4 => Phase::SaidUnknown,
        _ => Phase::NoStatus,
    }
}
