// The four bodies of a task file, kept in lent memory as the lines of the translator's text come. A number that can be no byte is kept as 255, which
// is outside every domain. What is kept has to be sound and the lent memory to have room: the callers see to both.
#![tactic(auto)]

mod in_order;

ghost use Rattle.std.specs.Prelude.{◌≡◌, ◌≤◌, length};
ghost use Rattle.rules.specs.Limits.{max_variables};
ghost use Rattle.bodies.specs.Keeping.{Sound, keeps, nothing_kept, one_fits, excess_with, no_more, as_byte, goal_room, actions_room, keep_size, keep_start, keep_goal, keep_precondition, keep_effect, keep_action};

use reader::limits::{COUNT_BYTES, MAX_ACTIONS, MAX_GOALS, MAX_PAIRS, MAX_VARIABLES, PAIR_BYTES};

// Which limit a text has gone beyond, if any. From then on nothing more is kept, since nothing more can change the verdict.
#[derive(Clone, Copy, PartialEq, Eq)]
pub enum Excess {
    Within,
    Lengths,
    Actions,
}

// What is kept: how many sizes, start values, goal pairs and actions, how many bytes these actions take, and how many pairs of the action that is
// being read stand behind them.
#[derive(Clone, Copy)]
pub struct Kept {
    pub sizes: usize,
    pub starts: usize,
    pub goals: usize,
    pub actions: usize,
    pub bytes: usize,
    pub preconditions: usize,
    pub effects: usize,
    pub excess: Excess,
}

// No line has been kept yet.
pub fn nothing_kept() -> Kept
    ensures value { result ≡ nothing_kept }
    ensures sound { Sound result }
{
    Kept {
        sizes: 0,
        starts: 0,
        goals: 0,
        actions: 0,
        bytes: 0,
        preconditions: 0,
        effects: 0,
        excess: Excess::Within,
    }
}

// No limit has been gone beyond, and one more is within this one.
fn one_fits(excess: Excess, count: usize, limit: usize) -> bool
    ensures { result ≡ one_fits excess count limit }
{
    excess == Excess::Within && count < limit
}

// The first limit that was gone beyond stays; where there is none, it is this one.
fn excess_with(first: Excess, excess: Excess) -> Excess
    ensures { result ≡ excess_with first excess }
{
    if first == Excess::Within {
        excess
    } else {
        first
    }
}

// Nothing more is kept, only which limit was first gone beyond.
fn no_more(kept: Kept, excess: Excess) -> Kept
    requires { Sound kept }
    ensures value { result ≡ no_more excess kept }
    ensures sound { Sound result }
{
    Kept {
        excess: excess_with(kept.excess, excess),
        ..kept
    }
}

// A number as a byte; the largest byte stands for every larger number.
fn as_byte(m: usize) -> u8
    ensures { result ≡ as_byte m }
{
    u8::try_from(m).unwrap_or(u8::MAX)
}

// The domain size of one more variable. What a start value shares with it is in the functions above: only the field and the body differ, and a field
// cannot be a parameter.
pub fn keep_size(kept: Kept, sizes: &mut [u8], size: usize) -> Kept
    requires { Sound kept × (max_variables ≤ length sizes.old) }
    ensures sizes_after { keeps result sizes.new ≡ keep_size size (keeps kept sizes.old) }
    ensures sound { Sound result }
{
    let at = kept.sizes;
    if !one_fits(kept.excess, at, MAX_VARIABLES) {
        return no_more(kept, Excess::Lengths);
    }
    sizes[at] = as_byte(size);
    Kept {
        sizes: at + 1,
        ..kept
    }
}

// The start value of one more variable.
pub fn keep_start(kept: Kept, start: &mut [u8], value: usize) -> Kept
    requires { Sound kept × (max_variables ≤ length start.old) }
    ensures start_after { keeps result start.new ≡ keep_start value (keeps kept start.old) }
    ensures sound { Sound result }
{
    let at = kept.starts;
    if !one_fits(kept.excess, at, MAX_VARIABLES) {
        return no_more(kept, Excess::Lengths);
    }
    start[at] = as_byte(value);
    Kept {
        starts: at + 1,
        ..kept
    }
}

// One more goal pair, in order.
pub fn keep_goal(kept: Kept, goal: &mut [u8], variable: usize, value: usize) -> Kept
    requires { Sound kept × (goal_room ≤ length goal.old) }
    ensures goal_after { keeps result goal.new ≡ keep_goal (record { variable = variable; value = value }) (keeps kept goal.old) }
    ensures sound { Sound result }
{
    let count = kept.goals;
    if !one_fits(kept.excess, count, MAX_GOALS) {
        return no_more(kept, Excess::Lengths);
    }
    in_order::insert_pair(goal, 0, count, 0, as_byte(variable), as_byte(value));
    Kept {
        goals: count + 1,
        ..kept
    }
}

// One more precondition of the action that is being read, in order; its effects move up.
pub fn keep_precondition(kept: Kept, actions: &mut [u8], variable: usize, value: usize) -> Kept
    requires { Sound kept × (actions_room ≤ length actions.old) }
    ensures actions_after { keeps result actions.new ≡ keep_precondition (record { variable = variable; value = value }) (keeps kept actions.old) }
    ensures sound { Sound result }
{
    let count = kept.preconditions;
    if !one_fits(kept.excess, count, MAX_PAIRS) {
        return no_more(kept, Excess::Actions);
    }
    let at = kept.bytes + COUNT_BYTES;
    let behind = PAIR_BYTES * kept.effects;
    in_order::insert_pair(
        actions,
        at,
        count,
        behind,
        as_byte(variable),
        as_byte(value),
    );
    Kept {
        preconditions: count + 1,
        ..kept
    }
}

// One more effect of the action that is being read, in order.
pub fn keep_effect(kept: Kept, actions: &mut [u8], variable: usize, value: usize) -> Kept
    requires { Sound kept × (actions_room ≤ length actions.old) }
    ensures actions_after { keeps result actions.new ≡ keep_effect (record { variable = variable; value = value }) (keeps kept actions.old) }
    ensures sound { Sound result }
{
    let count = kept.effects;
    if !one_fits(kept.excess, count, MAX_PAIRS) {
        return no_more(kept, Excess::Actions);
    }
    let at = kept.bytes + COUNT_BYTES + PAIR_BYTES * kept.preconditions;
    in_order::insert_pair(actions, at, count, 0, as_byte(variable), as_byte(value));
    Kept {
        effects: count + 1,
        ..kept
    }
}

// The action's pairs are all read: its two counts are written before them, and it is the next action.
pub fn keep_action(kept: Kept, actions: &mut [u8]) -> Kept
    requires { Sound kept × (actions_room ≤ length actions.old) }
    ensures actions_after { keeps result actions.new ≡ keep_action (keeps kept actions.old) }
    ensures sound { Sound result }
{
    let count = kept.actions;
    if !one_fits(kept.excess, count, MAX_ACTIONS) {
        return no_more(kept, Excess::Actions);
    }
    let at = kept.bytes;
    actions[at] = kept.preconditions as u8;
    actions[at + 1] = kept.effects as u8;
    let pairs = kept.preconditions + kept.effects;
    Kept {
        actions: count + 1,
        bytes: at + (COUNT_BYTES + PAIR_BYTES * pairs),
        preconditions: 0,
        effects: 0,
        ..kept
    }
}
