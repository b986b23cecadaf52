// Literals and whole lines of one or two literals, from their numbers.
ghost use Rattle.std.specs.Prelude.{[], ◌∷◌, ◌+◌, ◌*◌, ◌≤◌, length};
ghost use Rattle.rules.specs.Limits.{max_n};
ghost use Rattle.rules.specs.Text.{clause_line};
ghost use Rattle.rules.specs.Families.{plus, minus};
ghost use Rattle.digits.specs.Over.{Wrote};
ghost use Rattle.lines.specs.Written.{literals, line_end, literal_room, end_room, pair_room};

use digits::{put, put_byte};
use task::numbering::{FormulaNumber, number_of};

// A positive literal and the space behind it.
pub fn put_plus(out: &mut [u8], at: usize, number: FormulaNumber) -> usize
    requires { (number.0 ≤ max_n) × (at + literal_room ≤ length out.old) }
    ensures written { Wrote out.old at (literals (plus number.0 ∷ [])) out.new result }
    ensures within { result ≤ at + literal_room }
{
    let end = put(out, at, number_of(number));
    put_byte(out, end, b' ')
}

// A negative literal and the space behind it.
pub fn put_minus(out: &mut [u8], at: usize, number: FormulaNumber) -> usize
    requires { (number.0 ≤ max_n) × (at + literal_room ≤ length out.old) }
    ensures written { Wrote out.old at (literals (minus number.0 ∷ [])) out.new result }
    ensures within { result ≤ at + literal_room }
{
    let dashed = put_byte(out, at, b'-');
    let end = put(out, dashed, number_of(number));
    put_byte(out, end, b' ')
}

// The end of a line.
pub fn put_end(out: &mut [u8], at: usize) -> usize
    requires { at + end_room ≤ length out.old }
    ensures written { Wrote out.old at line_end out.new result }
    ensures within { result ≤ at + end_room }
{
    let end = put_byte(out, at, b'0');
    put_byte(out, end, b'\n')
}

// A line of one positive literal.
pub fn put_single(out: &mut [u8], at: usize, number: FormulaNumber) -> usize
    requires { (number.0 ≤ max_n) × (at + pair_room ≤ length out.old) }
    ensures written { Wrote out.old at (clause_line (plus number.0 ∷ [])) out.new result }
    ensures within { result ≤ at + pair_room }
{
    let end = put_plus(out, at, number);
    put_end(out, end)
}

// A line of two negative literals.
pub fn put_exclusion(
    out: &mut [u8],
    at: usize,
    first: FormulaNumber,
    second: FormulaNumber,
) -> usize
    requires { (first.0 ≤ max_n) × (second.0 ≤ max_n) × (at + pair_room ≤ length out.old) }
    ensures written { Wrote out.old at (clause_line (minus first.0 ∷ minus second.0 ∷ [])) out.new result }
    ensures within { result ≤ at + pair_room }
{
    let middle = put_minus(out, at, first);
    let end = put_minus(out, middle, second);
    put_end(out, end)
}

// A negative and a positive literal.
pub fn put_change(out: &mut [u8], at: usize, first: FormulaNumber, second: FormulaNumber) -> usize
    requires { (first.0 ≤ max_n) × (second.0 ≤ max_n) × (at + 2 * literal_room ≤ length out.old) }
    ensures written { Wrote out.old at (literals (minus first.0 ∷ plus second.0 ∷ [])) out.new result }
    ensures within { result ≤ at + 2 * literal_room }
{
    let middle = put_minus(out, at, first);
    put_plus(out, middle, second)
}

// A line of the two.
pub fn put_implication(
    out: &mut [u8],
    at: usize,
    first: FormulaNumber,
    second: FormulaNumber,
) -> usize
    requires { (first.0 ≤ max_n) × (second.0 ≤ max_n) × (at + pair_room ≤ length out.old) }
    ensures written { Wrote out.old at (clause_line (minus first.0 ∷ plus second.0 ∷ [])) out.new result }
    ensures within { result ≤ at + pair_room }
{
    let end = put_change(out, at, first, second);
    put_end(out, end)
}
