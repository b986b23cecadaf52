// Many lines "-p -q 0" at once: the clauses "not i, not j" for pairs i < j in order. These are nearly all lines of a large formula.
#![tactic(auto)]

mod exact;
mod rows;
mod texts;
mod words;

ghost use Rattle.std.specs.Prelude.{suc, ◌+◌, ◌*◌, ◌≤◌, ◌<◌, length};
ghost use Rattle.rules.specs.Limits.{max_n};
ghost use Rattle.rules.specs.Counts.{pairs_below, number_of_pair};
ghost use Rattle.digits.specs.Over.{Wrote};
ghost use Rattle.exclusions.specs.Exclusions.{exclusion_lines, pair_room};

use crate::rows::put_row;

// The lines of so many pairs below count, from the pair (first, second) on; answers the place behind them.
pub fn put_exclusions(
    out: &mut [u8],
    at: usize,
    base: usize,
    count: usize,
    first: usize,
    second: usize,
    lines: usize,
) -> usize
    requires { (first < second) × (second < count) × (number_of_pair count first second + lines ≤ pairs_below count) × (base + count ≤ suc max_n) × (at + pair_room * lines ≤ length out.old) }
    ensures written { Wrote out.old at (exclusion_lines base count (number_of_pair count first second) lines) out.new result }
    ensures within { result ≤ at + pair_room * lines }
{
    let mut end = at;
    let mut i = first;
    let mut j = second;
    let mut left = lines;
    // A `while`: it ends by the lines that are left, which fall by a whole row each turn.
    while count - j < left {
        end = put_row(out, end, base + i, base + j, count - j);
        left -= count - j;
        i += 1;
        j = i + 1;
    }
    put_row(out, end, base + i, base + j, left)
}
