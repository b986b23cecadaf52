// Lines of any two numbers, digit by digit.
ghost use Rattle.std.specs.Prelude.{suc, ◌+◌, ◌*◌, ◌≤◌, length};
ghost use Rattle.rules.specs.Limits.{max_n};
ghost use Rattle.digits.specs.Over.{Wrote};
ghost use Rattle.exclusions.specs.Exclusions.{exclusion_text, minus_text, end_text, row_text, literal_room, end_room, pair_room};

use digits::{put, put_byte};

// A negative literal and the space behind it.
fn put_minus(out: &mut [u8], at: usize, m: usize) -> usize
    requires { (m ≤ max_n) × (at + literal_room ≤ length out.old) }
    ensures written { Wrote out.old at (minus_text m) out.new result }
    ensures within { result ≤ at + literal_room }
{
    let dashed = put_byte(out, at, b'-');
    let end = put(out, dashed, m);
    put_byte(out, end, b' ')
}

// The end of a line.
fn put_end(out: &mut [u8], at: usize) -> usize
    requires { at + end_room ≤ length out.old }
    ensures { Wrote out.old at end_text out.new result }
{
    let end = put_byte(out, at, b'0');
    put_byte(out, end, b'\n')
}

// A line.
fn put_line(out: &mut [u8], at: usize, p: usize, q: usize) -> usize
    requires { (p ≤ max_n) × (q ≤ max_n) × (at + pair_room ≤ length out.old) }
    ensures written { Wrote out.old at (exclusion_text p q) out.new result }
    ensures within { result ≤ at + pair_room }
{
    let middle = put_minus(out, at, p);
    let end = put_minus(out, middle, q);
    put_end(out, end)
}

// n lines of a row.
pub fn put_row(out: &mut [u8], at: usize, p: usize, q: usize, n: usize) -> usize
    requires { (p ≤ max_n) × (q + n ≤ suc max_n) × (at + pair_room * n ≤ length out.old) }
    ensures written { Wrote out.old at (row_text p q n) out.new result }
    ensures within { result ≤ at + pair_room * n }
{
    let mut end = at;
    for i in 0..n {
        end = put_line(out, end, p, q + i);
    }
    end
}
