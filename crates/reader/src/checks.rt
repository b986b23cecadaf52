// What is judged of domain sizes, start values and pairs: refusals 3 to 6.
ghost use Rattle.std.specs.Prelude.{◌≡◌, ◌&&◌, [], suc, ◌+◌, ◌*◌, ◌/◌, ◌%◌, ◌<◌, ◌≤◌, leb, eqb, length};
ghost use Rattle.rules.specs.Counting.{first};
ghost use Rattle.rules.specs.Limits.{max_variables, max_goals, pair_bytes};
ghost use Rattle.rules.specs.Task.{S, size_at_fault, start_at_fault, pair_at_fault, list_in_order};
ghost use Rattle.rules.specs.File.{pairs_at};
ghost use Rattle.reader.specs.Bodies.{sized, task_in};

use crate::contents::byte_at;
use crate::limits::{MAX_DOMAIN, MAX_GOALS, MAX_PAIRS, MAX_VARIABLES, PAIR_BYTES};

// The lengths of three bodies fit: n from 1 to 96, as many start values, whole goal pairs and at most 96 of them.
pub(crate) fn lengths_fit(n: usize, starts: usize, goals: usize) -> bool
    ensures { result ≡ (leb 1 n && leb n max_variables && eqb starts n && eqb (goals % pair_bytes) 0 && leb (goals / pair_bytes) max_goals) }
{
    1 <= n
        && n <= MAX_VARIABLES
        && starts == n
        && goals % PAIR_BYTES == 0
        && goals / PAIR_BYTES <= MAX_GOALS
}

// The size of variable x is outside 1..64.
fn size_at_fault(sizes: &[u8], x: usize) -> bool
    requires { x < length sizes.now }
    ensures { result ≡ size_at_fault (sized sizes.now) x }
{
    let size = byte_at(sizes, x);
    if size < 1 {
        return true;
    }
    MAX_DOMAIN < size
}

// The first variable whose size is at fault, or n.
pub(crate) fn first_size_at_fault(sizes: &[u8]) -> usize
    ensures { result ≡ first (length sizes.now) (size_at_fault (sized sizes.now)) }
{
    for x in 0..sizes.len() {
        if size_at_fault(sizes, x) {
            return x;
        }
    }
    sizes.len()
}

// S, the sum of all sizes.
pub(crate) fn sum_of_sizes(sizes: &[u8]) -> usize
    requires { length sizes.now ≤ max_variables }
    ensures { result ≡ S (sized sizes.now) }
{
    sizes.iter().map(|&size| usize::from(size)).sum()
}

// The start value of variable x is outside its domain.
fn start_at_fault(sizes: &[u8], start: &[u8], x: usize) -> bool
    requires { (x < length sizes.now) × (x < length start.now) }
    ensures { result ≡ start_at_fault (task_in sizes.now start.now [] []) x }
{
    byte_at(sizes, x) <= byte_at(start, x)
}

// The first variable whose start value is at fault, or n.
pub(crate) fn first_start_at_fault(sizes: &[u8], start: &[u8]) -> usize
    requires { length start.now ≡ length sizes.now }
    ensures { result ≡ first (length sizes.now) (start_at_fault (task_in sizes.now start.now [] [])) }
{
    for x in 0..sizes.len() {
        if start_at_fault(sizes, start, x) {
            return x;
        }
    }
    sizes.len()
}

// The last of the i + 1 pairs from place at on is outside, or not above the one before. The variable is tested before its size is looked up.
fn pair_at_fault(sizes: &[u8], s: &[u8], at: usize, i: usize) -> bool
    requires { at + pair_bytes * suc i ≤ length s.now }
    ensures { result ≡ pair_at_fault (sized sizes.now) (pairs_at s.now at (suc i)) i }
{
    let variable = byte_at(s, at + PAIR_BYTES * i);
    if sizes.len() <= variable {
        return true;
    }
    if byte_at(sizes, variable) <= byte_at(s, at + PAIR_BYTES * i + 1) {
        return true;
    }
    if i == 0 {
        return false;
    }
    variable <= byte_at(s, at + PAIR_BYTES * (i - 1))
}

// The first of the pairs from place at on that is at fault, or their count.
pub(crate) fn first_pair_at_fault(sizes: &[u8], s: &[u8], at: usize, count: usize) -> usize
    requires { at + pair_bytes * count ≤ length s.now }
    ensures { result ≡ first count (pair_at_fault (sized sizes.now) (pairs_at s.now at count)) }
{
    for i in 0..count {
        if pair_at_fault(sizes, s, at, i) {
            return i;
        }
    }
    count
}

// At most eight pairs from place at on, none at fault.
pub(crate) fn list_in_order(sizes: &[u8], s: &[u8], at: usize, count: usize) -> bool
    requires { at + pair_bytes * count ≤ length s.now }
    ensures { result ≡ list_in_order (sized sizes.now) (pairs_at s.now at count) }
{
    if MAX_PAIRS < count {
        return false;
    }
    first_pair_at_fault(sizes, s, at, count) == count
}
