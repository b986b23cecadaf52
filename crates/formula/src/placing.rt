// The place of clause c: its family by the counts, its step by division, then its variable or action by a search in the index.
ghost use Rattle.std.specs.Prelude.{◌≡◌, ◌+◌, ◌≤◌, ◌<◌};
ghost use Rattle.rules.specs.Families.{C};
ghost use Rattle.rules.proofs.ByNumber.{clauses_before};
ghost use Rattle.task.specs.Families.{number_of_family};
ghost use Rattle.formula.specs.InFamily.{steps_of, width_of, count_of, IsAt, PlacedIn};
ghost use Rattle.task.specs.Asked.{task_in, problem_asked, file_asked};

use crate::families::{count_of, width};
use crate::place::Place;
use crate::search::{
    action_of_effect, action_of_precondition, variable_of_pair, variable_of_value,
};
use pairs::pair_of;
use task::asked::size;
use task::family::{FAMILIES, Family};
use task::index::{actions, effects_before, offset, preconditions_before, value_pairs_before};
use task::indexed::Asked;

// A family, and how many of its clauses stand before one.
#[derive(Clone, Copy)]
pub struct Rank {
    pub family: Family,
    pub before: usize,
}

// The family of clause c.
fn family_of(asked: &Asked, c: usize) -> Rank
    requires { c < C (problem_asked asked.now) }
    ensures { (result.before < count_of (task_in asked.now.task) asked.now.horizon (number_of_family result.family))
        × (clauses_before (task_in asked.now.task) asked.now.horizon (number_of_family result.family) + result.before ≡ c) }
{
    let mut before = c;
    for family in FAMILIES {
        let count = count_of(asked, family);
        if before < count {
            return Rank { family, before };
        }
        before -= count;
    }
    unreachable!()
}

// Two values of a variable.
fn two_values(asked: &Asked, s: usize, q: usize) -> Place
    requires { (s < steps_of asked.now.horizon 3) × (q < width_of (task_in asked.now.task) 3) }
    ensures { PlacedIn (file_asked asked.now) asked.now.horizon 3 s q result }
{
    let x = variable_of_pair(&asked.task, q);
    let pair = pair_of(
        size(asked.task.file, x),
        q - value_pairs_before(&asked.task, x),
    );
    Place::TwoValues(s, x, pair.first, pair.second)
}

// A precondition.
fn precondition(asked: &Asked, s: usize, q: usize) -> Place
    requires { (s < steps_of asked.now.horizon 4) × (q < width_of (task_in asked.now.task) 4) }
    ensures { PlacedIn (file_asked asked.now) asked.now.horizon 4 s q result }
{
    let a = action_of_precondition(&asked.task, q);
    Place::Precondition(s, a, q - preconditions_before(&asked.task, a))
}

// An effect.
fn effect(asked: &Asked, s: usize, q: usize) -> Place
    requires { (s < steps_of asked.now.horizon 5) × (q < width_of (task_in asked.now.task) 5) }
    ensures { PlacedIn (file_asked asked.now) asked.now.horizon 5 s q result }
{
    let a = action_of_effect(&asked.task, q);
    Place::Effect(s, a, q - effects_before(&asked.task, a))
}

// A value that stays.
fn stays(asked: &Asked, s: usize, q: usize) -> Place
    requires { (s < steps_of asked.now.horizon 6) × (q < width_of (task_in asked.now.task) 6) }
    ensures { PlacedIn (file_asked asked.now) asked.now.horizon 6 s q result }
{
    let x = variable_of_value(&asked.task, q);
    Place::Stays(s, x, q - offset(&asked.task, x))
}

// Two actions.
fn two_actions(asked: &Asked, s: usize, q: usize) -> Place
    requires { (s < steps_of asked.now.horizon 7) × (q < width_of (task_in asked.now.task) 7) }
    ensures { PlacedIn (file_asked asked.now) asked.now.horizon 7 s q result }
{
    let pair = pair_of(actions(&asked.task), q);
    Place::TwoActions(s, pair.first, pair.second)
}

// Clause q of step s of a family.
fn place_in(asked: &Asked, family: Family, s: usize, q: usize) -> Place
    requires { (s < steps_of asked.now.horizon (number_of_family family)) × (q < width_of (task_in asked.now.task) (number_of_family family)) }
    ensures { PlacedIn (file_asked asked.now) asked.now.horizon (number_of_family family) s q result }
{
    match family {
        Family::StartValues => Place::Start(q),
        Family::GoalPairs => Place::Goal(q),
        Family::AllValues => Place::AllValues(s, q),
        Family::TwoValues => two_values(asked, s, q),
        Family::Preconditions => precondition(asked, s, q),
        Family::Effects => effect(asked, s, q),
        Family::ValuesStay => stays(asked, s, q),
        Family::TwoActions => two_actions(asked, s, q),
    }
}

// The place of clause c.
pub fn place_of(asked: &Asked, c: usize) -> Place
    requires { c < C (problem_asked asked.now) }
    ensures { IsAt (problem_asked asked.now) c result }
{
    let rank = family_of(asked, c);
    let width = width(&asked.task, rank.family);
    place_in(asked, rank.family, rank.before / width, rank.before % width)
}
