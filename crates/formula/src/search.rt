// The summand of a running sum in which a number lies, found by halving over a column of the index.
ghost use Rattle.std.specs.Prelude.{◌≡◌, ◌+◌, ◌*◌, ◌<◌, length};
ghost use Rattle.rules.specs.Counts.{pairs_below};
ghost use Rattle.rules.specs.Task.{n, d, S, A as actionCount, action};
ghost use Rattle.pairs.specs.Halving.{Passes};
ghost use Rattle.task.specs.Index.{value_pairs_before, preconditions_before, effects_before};
ghost use Rattle.formula.specs.Parts.{column, Spans, InPart};
ghost use Rattle.task.specs.Asked.{task_in};

use task::asked::variables;
use task::index::{ACTION_WIDTH, ACTIONS_AT, VARIABLE_WIDTH, actions, number_in};
use task::indexed::IndexedFile;

// Number i of a column.
fn number_at(index: &[u16], at: usize, width: usize, i: usize) -> usize
    requires { at + width * i < length index.now }
    ensures { result ≡ column index.now at width i }
{
    number_in(index, at + width * i)
}

// The row at which a column passes q: lo and hi bracket it, and each turn halves how far they are apart.
fn row_of(index: &[u16], at: usize, width: usize, rows: usize, q: usize) -> usize
    requires { Spans index.now at width rows q }
    ensures { Passes (column index.now at width) rows q result }
{
    let mut lo = 0;
    let mut hi = rows;
    // A `while`: a bisection, of a column that is no slice.
    while 1 < hi - lo {
        let mid = lo + (hi - lo) / 2;
        if number_at(index, at, width, mid) <= q {
            lo = mid;
        } else {
            hi = mid;
        }
    }
    lo
}

// The variable of value q of all values.
pub fn variable_of_value(task: &IndexedFile, q: usize) -> usize
    requires { q < S (task_in task.now) }
    ensures { InPart (n (task_in task.now)) (d (task_in task.now)) q result }
{
    row_of(task.index, 0, VARIABLE_WIDTH, variables(task.file), q)
}

// The variable of pair q of all pairs of values of one variable.
pub fn variable_of_pair(task: &IndexedFile, q: usize) -> usize
    requires { q < value_pairs_before (task_in task.now) (n (task_in task.now)) }
    ensures { InPart (n (task_in task.now)) (λ x. pairs_below (d (task_in task.now) x)) q result }
{
    row_of(task.index, 1, VARIABLE_WIDTH, variables(task.file), q)
}

// The action of precondition q of all preconditions.
pub fn action_of_precondition(task: &IndexedFile, q: usize) -> usize
    requires { q < preconditions_before (task_in task.now) (actionCount (task_in task.now)) }
    ensures { InPart (actionCount (task_in task.now)) (λ a. length (action (task_in task.now) a).preconditions) q result }
{
    row_of(task.index, ACTIONS_AT + 1, ACTION_WIDTH, actions(task), q)
}

// The action of effect q of all effects.
pub fn action_of_effect(task: &IndexedFile, q: usize) -> usize
    requires { q < effects_before (task_in task.now) (actionCount (task_in task.now)) }
    ensures { InPart (actionCount (task_in task.now)) (λ a. length (action (task_in task.now) a).effects) q result }
{
    row_of(task.index, ACTIONS_AT + 2, ACTION_WIDTH, actions(task), q)
}
