// The action body: each action is read from the part that begins at its own first byte (refusal 7).
ghost use Rattle.std.specs.Prelude.{◌≡◌};
ghost use Rattle.rules.specs.Answers.{judge};
ghost use Rattle.reader.specs.Bodies.{action_read, actions_rule};

use crate::checks::list_in_order;
use crate::contents::byte_at;
use crate::limits::{COUNT_BYTES, MAX_ACTIONS, PAIR_BYTES};
use rules::Refusal;

// How many bytes the action takes that begins `rest`; none where it is at fault.
pub(crate) fn read_action(sizes: &[u8], rest: &[u8]) -> Option<usize>
    ensures { result ≡ action_read sizes.now rest.now }
{
    if rest.len() < COUNT_BYTES {
        return None;
    }
    let preconditions = byte_at(rest, 0);
    let effects = byte_at(rest, 1);
    let bytes = COUNT_BYTES + PAIR_BYTES * (preconditions + effects);
    if rest.len() < bytes {
        return None;
    }
    if !list_in_order(sizes, rest, COUNT_BYTES, preconditions) {
        return None;
    }
    if !list_in_order(
        sizes,
        rest,
        COUNT_BYTES + PAIR_BYTES * preconditions,
        effects,
    ) {
        return None;
    }
    Some(bytes)
}

// Refusal 7.
pub(crate) fn actions_verdict(sizes: &[u8], actions: &[u8]) -> Result<(), Refusal>
    ensures { result ≡ judge (actions_rule sizes.now actions.now) }
{
    let mut at = 0;
    let mut a = 0;
    // Each turn goes on by as many bytes as the action takes that it read.
    while at < actions.len() {
        if a == MAX_ACTIONS {
            return Err(Refusal::ActionAtFault(MAX_ACTIONS));
        }
        let Some(bytes) = read_action(sizes, &actions[at..]) else {
            return Err(Refusal::ActionAtFault(a));
        };
        at += bytes;
        a += 1;
    }
    Ok(())
}
