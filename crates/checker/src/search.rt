// The search through all clauses for one that is unmet, without a true literal among those named: family by family, in each step by step, in each item by
// item.
ghost use Rattle.std.specs.Prelude.{◌≡◌, ◌+◌, ◌*◌, ◌<◌, ◌≤◌};
ghost use Rattle.rules.specs.Counting.{first};
ghost use Rattle.rules.specs.Families.{C};
ghost use Rattle.task.specs.Families.{number_of_family};
ghost use Rattle.rows.specs.Lent.{lent};
ghost use Rattle.checker.specs.Order.{is_unmet, steps_of, clauses_of, step_clauses, Reached, Come};
ghost use Rattle.task.specs.Asked.{task_in, problem_asked, file_asked};

use crate::families::{
    effect_clauses, goal_clause, precondition_clauses, some_value_clause, start_clause,
    two_actions_clauses, two_values_clauses,
};
use crate::sizes::{clauses_of, items_of, step_clauses, steps_of};
use crate::stays::stay_clauses;
use task::family::{FAMILIES, Family};
use task::indexed::Asked;

// The lowest unmet clause up to the end of an item.
fn in_item(
    asked: &Asked,
    given: &[u64],
    truth: &[u64],
    family: Family,
    step: usize,
    i: usize,
    at: usize,
) -> usize
    requires { Come (file_asked asked.now) asked.now.task.index.now (lent given.now truth.now) asked.now.horizon (number_of_family family) step i at }
    ensures { result ≡ first (at + clauses_of (task_in asked.now.task) (number_of_family family) i) (is_unmet (file_asked asked.now) asked.now.horizon (lent given.now truth.now)) }
{
    match family {
        Family::StartValues => start_clause(asked, given, truth, i, at),
        Family::GoalPairs => goal_clause(asked, given, truth, i, at),
        Family::AllValues => some_value_clause(asked, given, truth, step, i, at),
        Family::TwoValues => two_values_clauses(asked, given, truth, step, i, at),
        Family::Preconditions => { precondition_clauses(asked, given, truth, step, i, at) }
        Family::Effects => effect_clauses(asked, given, truth, step, i, at),
        Family::ValuesStay => stay_clauses(asked, given, truth, step, i, at),
        Family::TwoActions => two_actions_clauses(asked, given, truth, step, at),
    }
}

// Up to the end of a step.
fn in_step(
    asked: &Asked,
    given: &[u64],
    truth: &[u64],
    family: Family,
    step: usize,
    start: usize,
) -> usize
    requires { Reached (file_asked asked.now) asked.now.task.index.now (lent given.now truth.now) asked.now.horizon (number_of_family family) step 0 start × (step < steps_of asked.now.horizon (number_of_family family)) }
    ensures { result ≡ first (start + step_clauses (task_in asked.now.task) (number_of_family family)) (is_unmet (file_asked asked.now) asked.now.horizon (lent given.now truth.now)) }
{
    let items = items_of(&asked.task, family);
    let mut at = start;
    for i in 0..items {
        let next = at + clauses_of(&asked.task, family, i);
        let c = in_item(asked, given, truth, family, step, i, at);
        if c < next {
            return c;
        }
        at = next;
    }
    at
}

// Up to the end of a family.
fn in_family(asked: &Asked, given: &[u64], truth: &[u64], family: Family, start: usize) -> usize
    requires { Reached (file_asked asked.now) asked.now.task.index.now (lent given.now truth.now) asked.now.horizon (number_of_family family) 0 0 start }
    ensures { result ≡ first (start + steps_of asked.now.horizon (number_of_family family) * step_clauses (task_in asked.now.task) (number_of_family family)) (is_unmet (file_asked asked.now) asked.now.horizon (lent given.now truth.now)) }
{
    let steps = steps_of(asked.horizon, family);
    let width = step_clauses(&asked.task, family);
    let mut at = start;
    for step in 0..steps {
        let next = at + width;
        let c = in_step(asked, given, truth, family, step, at);
        if c < next {
            return c;
        }
        at = next;
    }
    at
}

// How many clauses a family has.
fn family_clauses(asked: &Asked, family: Family) -> usize
    ensures { result ≡ steps_of asked.now.horizon (number_of_family family) * step_clauses (task_in asked.now.task) (number_of_family family) }
{
    steps_of(asked.horizon, family) * step_clauses(&asked.task, family)
}

// The lowest unmet clause; C where none is.
pub fn lowest_unmet(asked: &Asked, given: &[u64], truth: &[u64]) -> usize
    ensures { result ≡ first (C (problem_asked asked.now)) (is_unmet (file_asked asked.now) asked.now.horizon (lent given.now truth.now)) }
{
    let mut at = 0;
    for family in FAMILIES {
        let next = at + family_clauses(asked, family);
        let c = in_family(asked, given, truth, family, at);
        if c < next {
            return c;
        }
        at = next;
    }
    at
}

// C.
pub fn all_clauses(asked: &Asked) -> usize
    ensures { result ≡ C (problem_asked asked.now) }
{
    let mut count = 0;
    for family in FAMILIES {
        count += family_clauses(asked, family);
    }
    count
}
