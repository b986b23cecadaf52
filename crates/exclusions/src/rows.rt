// A row of lines: one first number, and second numbers that follow each other.
ghost use Rattle.std.specs.Prelude.{◌≡◌, suc, ◌+◌, ◌-◌, ◌*◌, ◌%◌, ◌≤◌, ◌<◌, min, length};
ghost use Rattle.rules.specs.Limits.{max_n};
ghost use Rattle.rules.specs.Text.{decimal};
ghost use Rattle.digits.specs.Over.{Wrote};
ghost use Rattle.exclusions.specs.Exclusions.{row_text, pair_room};
ghost use Rattle.exclusions.specs.InTwoWords.{signs, number_digits, three_digits, tail_word, run_text};

use crate::exact;
use crate::texts::{digits_of, head_of, tail_of};
use crate::words::{WIDE, put_run, put_wide};
use digits::digit_count;

const TEN: usize = 10;

// The least number of three digits.
const THREE_DIGITS: usize = 100;

// The bytes of a line beside its digits.
const SIGNS: usize = 6;

// How many lines there are to the next number that ends in 0, and at most left.
fn run_of(m: usize, left: usize) -> usize
    ensures { result ≡ min (10 - m % 10) left }
{
    (TEN - m % TEN).min(left)
}

// n lines whose second numbers, from m on, differ in the last digit only.
fn put_ten(out: &mut [u8], at: usize, head: u64, beside: usize, m: usize, n: usize) -> usize
    requires { (signs < beside) × (beside ≤ signs + number_digits) × (three_digits ≤ m) × (m ≤ max_n) × (m % 10 + n ≤ 10) × (at + pair_room * n ≤ length out.old) }
    ensures written { Wrote out.old at (run_text head (beside + length (decimal m)) (tail_word m) n) out.new result }
    ensures within { result ≤ at + pair_room * n }
{
    let line = beside + digits_of(m);
    let tail = tail_of(m);
    // Two tests, since one of both made the clause program slower.
    if n < TEN {
        return put_run(out, at, head, line, tail, n);
    }
    if line < WIDE {
        return put_run(out, at, head, line, tail, n);
    }
    put_wide(out, at, head, tail)
}

// Ten lines a turn, from a number that ends in 0 to the next.
fn put_tens(out: &mut [u8], at: usize, p: usize, q: usize, n: usize) -> usize
    requires { (p ≤ max_n) × (three_digits ≤ q) × (q + n ≤ suc max_n) × (at + pair_room * n ≤ length out.old) }
    ensures written { Wrote out.old at (row_text p q n) out.new result }
    ensures within { result ≤ at + pair_room * n }
{
    let head = head_of(p);
    let beside = digit_count(p) + SIGNS;
    let mut end = at;
    let mut i = 0;
    // A `while`: each turn goes on by as many lines as it wrote.
    while i < n {
        let run = run_of(q + i, n - i);
        end = put_ten(out, end, head, beside, q + i, run);
        i += run;
    }
    end
}

// n lines of a row.
pub fn put_row(out: &mut [u8], at: usize, p: usize, q: usize, n: usize) -> usize
    requires { (p ≤ max_n) × (q + n ≤ suc max_n) × (at + pair_room * n ≤ length out.old) }
    ensures written { Wrote out.old at (row_text p q n) out.new result }
    ensures within { result ≤ at + pair_room * n }
{
    if q < THREE_DIGITS {
        return exact::put_row(out, at, p, q, n);
    }
    put_tens(out, at, p, q, n)
}
