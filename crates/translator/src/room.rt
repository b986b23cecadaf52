// Whether what is lent is room for a reading.
ghost use Rattle.std.specs.Prelude.{◌≡◌, length};
ghost use Rattle.translator.specs.Intake.{actions_fit, counts_fit, lent_fits, read_from, taken, has_room};

use crate::intake::Intake;
use crate::parts::Bodies;
use bodies::Kept;
use reader::limits::{COUNT_BYTES, MAX_ACTIONS, MAX_GOALS, MAX_PAIRS, MAX_VARIABLES, PAIR_BYTES};

// The bytes of the longest action.
const MAX_ACTION: usize = COUNT_BYTES + PAIR_BYTES * (MAX_PAIRS + MAX_PAIRS);

// Room for the goal at its limit.
pub const GOAL_ROOM: usize = PAIR_BYTES * MAX_GOALS;

// Room for all actions and the pairs of one more.
pub const ACTIONS_ROOM: usize = (MAX_ACTIONS + 1) * MAX_ACTION;

// Room for the first bytes of a line, which decide it.
pub const HEAD_ROOM: usize = 32;

#[tactic(auto, unfolding(crate::specs::Intake::actions_fit))]
fn actions_fit(actions: usize, bytes: usize) -> bool
    ensures { result ≡ actions_fit actions bytes }
{
    actions <= MAX_ACTIONS && bytes <= MAX_ACTION * actions
}

// No count is over its limit.
#[tactic(auto, unfolding(crate::specs::Intake::counts_fit))]
fn counts_fit(kept: Kept) -> bool
    ensures { result ≡ counts_fit kept }
{
    (kept.sizes <= MAX_VARIABLES)
        & (kept.starts <= MAX_VARIABLES)
        & (kept.goals <= MAX_GOALS)
        & actions_fit(kept.actions, kept.bytes)
        & (kept.preconditions <= MAX_PAIRS)
        & (kept.effects <= MAX_PAIRS)
}

// The parts are room for the bodies and for a line.
#[tactic(auto, unfolding(crate::specs::Intake::lent_fits))]
fn lent_fits(bodies: Bodies<'_>, line: &[u8]) -> bool
    ensures { result ≡ lent_fits (read_from bodies.entry) (length line.now) }
{
    (MAX_VARIABLES <= bodies.sizes.len())
        & (MAX_VARIABLES <= bodies.start.len())
        & (GOAL_ROOM <= bodies.goal.len())
        & (ACTIONS_ROOM <= bodies.actions.len())
        & (HEAD_ROOM <= line.len())
}

// Whether what is lent is room for a reading, and no count of it is over its limit.
#[tactic(auto, unfolding(crate::specs::Intake::has_room))]
pub(crate) fn has_room(state: Intake, bodies: Bodies<'_>, line: &[u8]) -> bool
    ensures { result ≡ has_room (taken state (read_from bodies.entry) line.now) }
{
    counts_fit(state.kept) & (state.held <= HEAD_ROOM) & lent_fits(bodies, line)
}
