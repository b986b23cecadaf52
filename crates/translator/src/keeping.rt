// What a line that was in order adds to the bodies that are kept.
ghost use Rattle.std.specs.Prelude.{◌≡◌, ◌≤◌, length};
ghost use Rattle.bodies.specs.Keeping.{Sound, keeps, actions_room};
ghost use Rattle.translator.specs.Intake.{lent_in, SameParts, Lent, kept_in, effect_kept, keep_old, keep_line};

use crate::parts::Parts;
use bodies::Kept;
use rules::FormatLine;
use textlines::Numbers;

// An old value, unless it is any, is a precondition.
fn keep_old(variable: usize, old: Option<usize>, kept: Kept, actions: &mut [u8]) -> Kept
    requires { Sound kept × (actions_room ≤ length actions.old) }
    ensures actions_after { keeps result actions.new ≡ keep_old variable old (keeps kept actions.old) }
    ensures sound { Sound result }
{
    match old {
        None => kept,
        Some(value) => bodies::keep_precondition(kept, actions, variable, value),
    }
}

// An effect, and its old value.
fn keep_change(said: Numbers, kept: Kept, actions: &mut [u8]) -> Kept
    requires { Sound kept × (actions_room ≤ length actions.old) }
    ensures actions_after { keeps result actions.new ≡ effect_kept said (keeps kept actions.old) }
    ensures sound { Sound result }
{
    let before = keep_old(said.first, said.old, kept, actions);
    bodies::keep_effect(before, actions, said.first, said.second)
}

// What a line adds.
#[tactic(auto, unfolding(crate::specs::Intake::keep_line))]
pub(crate) fn keep_line(due: FormatLine, said: Numbers, kept: Kept, parts: &mut Parts<'_>) -> Kept
    requires { Sound kept × Lent (lent_in parts.old) }
    ensures actions_after { kept_in result (lent_in parts.new) ≡ keep_line due said (kept_in kept (lent_in parts.old)) }
    ensures sound { Sound result }
    ensures same { SameParts parts.old parts.new }
{
    match due {
        FormatLine::Range => bodies::keep_size(kept, parts.sizes, said.first),
        FormatLine::StateValue => bodies::keep_start(kept, parts.start, said.first),
        FormatLine::GoalFact => bodies::keep_goal(kept, parts.goal, said.first, said.second),
        FormatLine::PrevailCondition => bodies::keep_precondition(
            kept,
            parts.actions,
            said.first,
            said.second,
        ),
        FormatLine::Effect => keep_change(said, kept, parts.actions),
        FormatLine::Cost => bodies::keep_action(kept, parts.actions),
        _ => kept,
    }
}
