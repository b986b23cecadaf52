// The lowest unmet clause of one item, family by family: where none is unmet, the number of the clause behind the item's last.
ghost use Rattle.std.specs.Prelude.{◌≡◌, ◌+◌};
ghost use Rattle.rules.specs.Counting.{first};
ghost use Rattle.rows.specs.Lent.{lent};
ghost use Rattle.checker.specs.Order.{is_unmet, clauses_of, Come, pairs_family, start_values, goal_pairs, some_value, two_values, preconditions_hold, effects_hold, two_actions};
ghost use Rattle.task.specs.Asked.{task_in, file_asked};

use crate::action_pairs::{ActionPairs, nth_pair, pair_count, told_at};
use crate::bits::{
    UNNAMED_IN_NEGATIVE, UNNAMED_IN_POSITIVE, acts, first_action, first_value, pair_holds,
    value_holds,
};
use crate::first_two::first_pair;
use rows::first_set;
use task::asked::{goal_pair, size, start_value};
use task::index::actions;
use task::indexed::Asked;

// A variable is named to have its start value at the first step.
pub fn start_clause(asked: &Asked, given: &[u64], truth: &[u64], x: usize, at: usize) -> usize
    requires { Come (file_asked asked.now) asked.now.task.index.now (lent given.now truth.now) asked.now.horizon start_values 0 x at }
    ensures { result ≡ first (at + clauses_of (task_in asked.now.task) start_values x) (is_unmet (file_asked asked.now) asked.now.horizon (lent given.now truth.now)) }
{
    let value = start_value(asked.task.file, x);
    if value_holds(&asked.task, given, truth, UNNAMED_IN_POSITIVE, 0, x, value) {
        return at + 1;
    }
    at
}

// A goal pair is named to hold at the last step.
pub fn goal_clause(asked: &Asked, given: &[u64], truth: &[u64], i: usize, at: usize) -> usize
    requires { Come (file_asked asked.now) asked.now.task.index.now (lent given.now truth.now) asked.now.horizon goal_pairs 0 i at }
    ensures { result ≡ first (at + clauses_of (task_in asked.now.task) goal_pairs i) (is_unmet (file_asked asked.now) asked.now.horizon (lent given.now truth.now)) }
{
    let pair = goal_pair(asked.task.file, i);
    if pair_holds(
        &asked.task,
        given,
        truth,
        UNNAMED_IN_POSITIVE,
        asked.horizon,
        pair,
    ) {
        return at + 1;
    }
    at
}

// A variable is named to have some value at a step.
pub fn some_value_clause(
    asked: &Asked,
    given: &[u64],
    truth: &[u64],
    step: usize,
    x: usize,
    at: usize,
) -> usize
    requires { Come (file_asked asked.now) asked.now.task.index.now (lent given.now truth.now) asked.now.horizon some_value step x at }
    ensures { result ≡ first (at + clauses_of (task_in asked.now.task) some_value x) (is_unmet (file_asked asked.now) asked.now.horizon (lent given.now truth.now)) }
{
    let values = size(asked.task.file, x);
    let from = first_value(&asked.task, step, x);
    if first_set(given, truth, UNNAMED_IN_POSITIVE, from, values) < values {
        return at + 1;
    }
    at
}

// Of every two values one is named false there.
pub fn two_values_clauses(
    asked: &Asked,
    given: &[u64],
    truth: &[u64],
    step: usize,
    x: usize,
    at: usize,
) -> usize
    requires { Come (file_asked asked.now) asked.now.task.index.now (lent given.now truth.now) asked.now.horizon two_values step x at }
    ensures { result ≡ first (at + clauses_of (task_in asked.now.task) two_values x) (is_unmet (file_asked asked.now) asked.now.horizon (lent given.now truth.now)) }
{
    let from = first_value(&asked.task, step, x);
    at + first_pair(given, truth, from, size(asked.task.file, x))
}

// The pairs of a list of an action that is not named false at a step are named to hold.
fn pair_clauses(
    asked: &Asked,
    given: &[u64],
    truth: &[u64],
    list: ActionPairs,
    step: usize,
    a: usize,
    at: usize,
) -> usize
    requires { Come (file_asked asked.now) asked.now.task.index.now (lent given.now truth.now) asked.now.horizon (pairs_family list) step a at }
    ensures { result ≡ first (at + clauses_of (task_in asked.now.task) (pairs_family list) a) (is_unmet (file_asked asked.now) asked.now.horizon (lent given.now truth.now)) }
{
    let count = pair_count(&asked.task, list, a);
    if !acts(&asked.task, given, truth, UNNAMED_IN_NEGATIVE, step, a) {
        return at + count;
    }
    let told = told_at(list, step);
    for i in 0..count {
        let pair = nth_pair(&asked.task, list, a, i);
        if !pair_holds(&asked.task, given, truth, UNNAMED_IN_POSITIVE, told, pair) {
            return at + i;
        }
    }
    at + count
}

// The preconditions of an action that is not named false at a step are named to hold there.
pub fn precondition_clauses(
    asked: &Asked,
    given: &[u64],
    truth: &[u64],
    step: usize,
    a: usize,
    at: usize,
) -> usize
    requires { Come (file_asked asked.now) asked.now.task.index.now (lent given.now truth.now) asked.now.horizon preconditions_hold step a at }
    ensures { result ≡ first (at + clauses_of (task_in asked.now.task) preconditions_hold a) (is_unmet (file_asked asked.now) asked.now.horizon (lent given.now truth.now)) }
{
    let list = ActionPairs::Preconditions;
    pair_clauses(asked, given, truth, list, step, a, at)
}

// Its effects are named to hold at the next.
pub fn effect_clauses(
    asked: &Asked,
    given: &[u64],
    truth: &[u64],
    step: usize,
    a: usize,
    at: usize,
) -> usize
    requires { Come (file_asked asked.now) asked.now.task.index.now (lent given.now truth.now) asked.now.horizon effects_hold step a at }
    ensures { result ≡ first (at + clauses_of (task_in asked.now.task) effects_hold a) (is_unmet (file_asked asked.now) asked.now.horizon (lent given.now truth.now)) }
{
    let list = ActionPairs::Effects;
    pair_clauses(asked, given, truth, list, step, a, at)
}

// Of every two actions at a step one is named false.
pub fn two_actions_clauses(
    asked: &Asked,
    given: &[u64],
    truth: &[u64],
    step: usize,
    at: usize,
) -> usize
    requires { Come (file_asked asked.now) asked.now.task.index.now (lent given.now truth.now) asked.now.horizon two_actions step 0 at }
    ensures { result ≡ first (at + clauses_of (task_in asked.now.task) two_actions 0) (is_unmet (file_asked asked.now) asked.now.horizon (lent given.now truth.now)) }
{
    let count = actions(&asked.task);
    if count == 0 {
        return at;
    }
    at + first_pair(given, truth, first_action(&asked.task, step), count)
}
