// The whole verdict on a file: refusals 1 to 7.
ghost use Rattle.std.specs.Prelude.{◌≡◌};
ghost use Rattle.rules.specs.Answers.{judge};
ghost use Rattle.rules.specs.File.{file_verdict};
ghost use Rattle.reader.specs.Bodies.{bodies_rules};

use crate::actions::actions_verdict;
use crate::checks::{
    first_pair_at_fault, first_size_at_fault, first_start_at_fault, lengths_fit, sum_of_sizes,
};
use crate::contents::{contents_verdict, row_body};
use crate::limits::{MAX_VALUES, PAIR_BYTES};
use rules::Refusal;

// Refusals 3 to 7, of four bodies. It is an inner function: the reader of the translator's text judges the bodies that it kept by it too.
pub fn bodies_verdict(
    sizes: &[u8],
    start: &[u8],
    goal: &[u8],
    actions: &[u8],
) -> Result<(), Refusal>
    ensures { result ≡ judge (bodies_rules sizes.now start.now goal.now actions.now) }
{
    let n = sizes.len();
    if !lengths_fit(n, start.len(), goal.len()) {
        return Err(Refusal::BodyLength);
    }
    let size = first_size_at_fault(sizes);
    if size < n {
        return Err(Refusal::DomainSize(size));
    }
    if MAX_VALUES < sum_of_sizes(sizes) {
        return Err(Refusal::DomainSize(n));
    }
    let value = first_start_at_fault(sizes, start);
    if value < n {
        return Err(Refusal::StartValue(value));
    }
    let pairs = goal.len() / PAIR_BYTES;
    let pair = first_pair_at_fault(sizes, goal, 0, pairs);
    if pair < pairs {
        return Err(Refusal::GoalPair(pair));
    }
    actions_verdict(sizes, actions)
}

// Refusals 1 to 7.
pub fn file_verdict(file: &[u8]) -> Result<(), Refusal>
    ensures { result ≡ file_verdict file.now }
{
    contents_verdict(file)?;
    bodies_verdict(
        row_body(file, 0),
        row_body(file, 1),
        row_body(file, 2),
        row_body(file, 3),
    )
}
