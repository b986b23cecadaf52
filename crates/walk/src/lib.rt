// The walk: the state is one record of 96 values, filled from the start body, that each move changes in place.
#![tactic(auto)]

ghost use Rattle.std.specs.Prelude.{◌≡◌, ◌+◌, ◌*◌, ◌<◌, ◌^◌, set};
ghost use Rattle.rules.specs.Counting.{every};
ghost use Rattle.rules.specs.Limits.{pair_bytes};
ghost use Rattle.rules.specs.File.{action_in, pairs_at};
ghost use Rattle.rules.specs.Walk.{holds, set_pairs};
ghost use Rattle.walk.specs.Lent.{pair_at, goal_in, first_unmet, start_values};

// These three stand in reader::limits too; to share them, the walk would have to stand on the whole reader.
const MAX_VARIABLES: usize = 96;

const COUNT_BYTES: usize = 2;

const PAIR_BYTES: usize = 2;

// The state of a walk: the value of each variable, and 0 from n on.
#[derive(Clone, Copy)]
pub struct State {
    pub values: [u8; MAX_VARIABLES],
}

// The start values, and zeros behind them.
pub fn start(body: &[u8]) -> State
    ensures { result.values ≡ start_values body.now }
{
    let mut values = [0; MAX_VARIABLES];
    for x in 0..MAX_VARIABLES {
        values[x] = lent_bytes::byte_at(body, x);
    }
    State { values }
}

// The pair at a place holds.
fn pair_holds(values: &[u8], pairs: &[u8], at: usize) -> bool
    requires { at + 1 < 2 ^ 64 }
    ensures { result ≡ holds values.now (pair_at pairs.now at) }
{
    lent_bytes::byte_at(values, lent_bytes::number_at(pairs, at))
        == lent_bytes::byte_at(pairs, at + 1)
}

// The first of the pairs from a place on that does not hold, or how many there are.
fn first_unmet(values: &[u8], pairs: &[u8], at: usize, count: usize) -> usize
    requires { at + pair_bytes * count < 2 ^ 64 }
    ensures { result ≡ first_unmet values.now (pairs_at pairs.now at count) }
{
    for i in 0..count {
        if !pair_holds(values, pairs, at + PAIR_BYTES * i) {
            return i;
        }
    }
    count
}

// The action that begins `action` applies: all its preconditions hold.
pub fn applies(values: &[u8], action: &[u8]) -> bool
    ensures { result ≡ every (holds values.now) (action_in action.now).preconditions }
{
    let count = lent_bytes::number_at(action, 0);
    first_unmet(values, action, COUNT_BYTES, count) == count
}

// The first goal pair that does not hold, or how many there are.
pub fn unmet(values: &[u8], goal: &[u8]) -> usize
    ensures { result ≡ first_unmet values.now (goal_in goal.now) }
{
    first_unmet(values, goal, 0, goal.len() / PAIR_BYTES)
}

// Sets a variable to a value; where there is no such variable nothing changes.
fn set_value(values: &mut [u8], x: usize, v: u8)
    ensures { values.new ≡ set values.old x v }
{
    if x < values.len() {
        values[x] = v;
    }
}

// Sets all pairs from a place on, in turn.
fn set_pairs(values: &mut [u8], pairs: &[u8], at: usize, count: usize)
    requires { at + pair_bytes * count < 2 ^ 64 }
    ensures { values.new ≡ set_pairs values.old (pairs_at pairs.now at count) }
{
    for i in 0..count {
        let p = at + PAIR_BYTES * i;
        set_value(
            &mut *values,
            lent_bytes::number_at(pairs, p),
            lent_bytes::byte_at(pairs, p + 1),
        );
    }
}

// The action that begins `action` sets the variables of its effects and no others.
fn set_effects(values: &mut [u8], action: &[u8])
    ensures { values.new ≡ set_pairs values.old (action_in action.now).effects }
{
    let at = COUNT_BYTES + PAIR_BYTES * lent_bytes::number_at(action, 0);
    set_pairs(values, action, at, lent_bytes::number_at(action, 1));
}

// A move: the record that is lent is changed in place.
pub fn apply(state: &mut State, action: &[u8])
    ensures { state.new.values ≡ set_pairs state.old.values (action_in action.now).effects }
{
    set_effects(&mut state.values, action);
}

// The state after a move, for callers that hold the record themselves.
pub fn after(mut state: State, action: &[u8]) -> State
    ensures { result.values ≡ set_pairs state.values (action_in action.now).effects }
{
    apply(&mut state, action);
    state
}
