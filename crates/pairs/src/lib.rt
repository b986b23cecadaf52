// The pairs i < j below m in their order: how many there are, and from a pair to its number and back, without a table and without a walk over the pairs
// before it.
#![tactic(auto)]

ghost use Rattle.std.specs.Prelude.{◌≡◌, ◌≤◌, ◌<◌};
ghost use Rattle.rules.specs.Limits.{max_actions};
ghost use Rattle.rules.specs.Counts.{pairs_below, pairs_before, PairAt};

// Two numbers, the first below the second.
#[derive(Clone, Copy)]
pub struct RisingPair {
    pub first: usize,
    pub second: usize,
}

// How many pairs of numbers below m there are.
pub fn pairs_below(m: usize) -> usize
    requires { m ≤ max_actions }
    ensures { result ≡ pairs_below m }
{
    m * m.saturating_sub(1) / 2
}

// How many of them have a first number below i.
pub fn pairs_before(m: usize, i: usize) -> usize
    requires { (1 ≤ m) × (m ≤ max_actions) × (i ≤ m) }
    ensures { result ≡ pairs_before m i }
{
    i * (2 * m - i - 1) / 2
}

// The number of the pair i < j.
pub fn number_of_pair(m: usize, i: usize, j: usize) -> usize
    requires { (m ≤ max_actions) × (i < j) × (j < m) }
    ensures { PairAt m result i j }
{
    pairs_before(m, i) + (j - i - 1)
}

// The pair with the number r. Its first number is the last whose pairs begin at or before r: lo and hi bracket it, and each turn halves how far they are
// apart.
pub fn pair_of(m: usize, r: usize) -> RisingPair
    requires { (m ≤ max_actions) × (r < pairs_below m) }
    ensures { PairAt m r result.first result.second }
{
    let mut lo = 0;
    let mut hi = m;
    // Bisection: each turn halves the stretch between the two places.
    while 1 < hi - lo {
        let width = hi - lo;
        let mid = lo + width / 2;
        if pairs_before(m, mid) <= r {
            lo = mid;
        } else {
            hi = mid;
        }
    }
    let start = pairs_before(m, lo);
    RisingPair {
        first: lo,
        second: lo + 1 + (r - start),
    }
}
