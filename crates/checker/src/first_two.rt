// The first variable of a stretch that counts as true, the first two, and the number of their pair.
ghost use Rattle.std.specs.Prelude.{◌≡◌, ◌+◌, ◌<◌, ◌≤◌, true};
ghost use Rattle.rules.specs.Counting.{first};
ghost use Rattle.rules.specs.Limits.{max_actions};
ghost use Rattle.rows.specs.Bits.{counts_true, set_from};
ghost use Rattle.rows.specs.Lent.{lent};
ghost use Rattle.rows.specs.Bound.{most_variables};
ghost use Rattle.rows.specs.Stretch.{count_set};
ghost use Rattle.checker.specs.Order.{FirstPair};

use crate::bits::UNNAMED_IN_NEGATIVE;
use pairs::{number_of_pair, pairs_below};
use rows::{count_set, first_set};

// The first of a stretch in which some variable counts as true.
pub fn first_of_some(given: &[u64], truth: &[u64], unnamed: bool, from: usize, m: usize) -> usize
    requires { (0 < from) × (from + m < most_variables) × (0 < count_set (counts_true unnamed (lent given.now truth.now)) from m) }
    ensures { (result ≡ first m (set_from (counts_true unnamed (lent given.now truth.now)) from)) × (result < m) }
{
    first_set(given, truth, unnamed, from, m)
}

// The pair of the first two among m variables from one on that are not named false; where fewer are there is none.
pub fn first_pair(given: &[u64], truth: &[u64], from: usize, m: usize) -> usize
    requires { (0 < from) × (m ≤ max_actions) × (from + m < most_variables) }
    ensures { FirstPair m (set_from (counts_true true (lent given.now truth.now)) from) result }
{
    if count_set(given, truth, UNNAMED_IN_NEGATIVE, from, m) < 2 {
        return pairs_below(m);
    }
    let i = first_of_some(given, truth, UNNAMED_IN_NEGATIVE, from, m);
    let t = first_of_some(given, truth, UNNAMED_IN_NEGATIVE, from + i + 1, m - i - 1);
    let j = i + 1 + t;
    number_of_pair(m, i, j)
}
