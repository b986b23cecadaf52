// How an answer crosses: its number is the result, its detail is written to a cell.
ghost use Rattle.std.specs.Prelude.{◌≡◌};
ghost use Rattle.rules.specs.Answers.{answer, answer_of, answer_to, answer_to_line};
ghost use Rattle.host.specs.Cells.{phase_left, highest_left};

use crate::states::phase_number;
use refusals::{detail_of, number_of};
use rules::{Reading, Refusal};

pub(crate) fn accept(detail: &mut usize) -> usize
    ensures { answer result detail.new ≡ answer 0 0 }
{
    *detail = 0;
    0
}

pub(crate) fn refuse(why: Refusal, detail: &mut usize) -> usize
    ensures { answer result detail.new ≡ answer_of why }
{
    *detail = detail_of(why);
    number_of(why)
}

pub(crate) fn tell(verdict: Result<(), Refusal>, detail: &mut usize) -> usize
    ensures { answer result detail.new ≡ answer_to verdict }
{
    match verdict {
        Ok(()) => accept(detail),
        Err(why) => refuse(why, detail),
    }
}

// The next reading state is acceptance, and its phase is written to a cell.
pub(crate) fn tell_line(
    line: Result<Reading, Refusal>,
    phase: &mut usize,
    detail: &mut usize,
) -> usize
    ensures { (answer result detail.new ≡ answer_to_line line) × (phase.new ≡ phase_left line phase.old) }
{
    match line {
        Ok(reading) => {
            let next = reading.phase;
            *phase = phase_number(next);
            accept(detail)
        }
        Err(why) => refuse(why, detail),
    }
}

// The highest variable of the next reading state is written to a cell.
pub(crate) fn keep_highest(line: Result<Reading, Refusal>, highest: &mut usize)
    ensures { highest.new ≡ highest_left line highest.old }
{
    match line {
        Ok(reading) => {
            *highest = reading.highest;
        }
        Err(_) => {}
    }
}
