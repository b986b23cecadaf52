// Literals written into lent memory, as the signed numbers that solvers take.
ghost use Rattle.std.specs.Prelude.{◌≡◌, [], ◌∷◌, ◌≤◌, ◌<◌, length};
ghost use Rattle.rules.specs.Limits.{max_n};
ghost use Rattle.rules.specs.Families.{plus, minus};
ghost use Rattle.formula.specs.Front.{written};

use task::numbering::{FormulaNumber, number_of};

// A number as it is.
pub fn put_plus(out: &mut [i32], at: usize, number: FormulaNumber)
    requires { (at < length out.old) × (number.0 ≤ max_n) }
    ensures { out.new ≡ written out.old at (plus number.0 ∷ []) }
{
    out[at] = number_of(number) as i32;
}

// A number negated.
pub fn put_minus(out: &mut [i32], at: usize, number: FormulaNumber)
    requires { (at < length out.old) × (number.0 ≤ max_n) }
    ensures { out.new ≡ written out.old at (minus number.0 ∷ []) }
{
    out[at] = -(number_of(number) as i32);
}

// Not the first, or the second.
pub fn put_implies(out: &mut [i32], first: FormulaNumber, second: FormulaNumber)
    requires { (2 ≤ length out.old) × (first.0 ≤ max_n) × (second.0 ≤ max_n) }
    ensures { out.new ≡ written out.old 0 (minus first.0 ∷ plus second.0 ∷ []) }
{
    put_minus(out, 0, first);
    put_plus(out, 1, second);
}

// Not both.
pub fn put_excludes(out: &mut [i32], first: FormulaNumber, second: FormulaNumber)
    requires { (2 ≤ length out.old) × (first.0 ≤ max_n) × (second.0 ≤ max_n) }
    ensures { out.new ≡ written out.old 0 (minus first.0 ∷ minus second.0 ∷ []) }
{
    put_minus(out, 0, first);
    put_minus(out, 1, second);
}
