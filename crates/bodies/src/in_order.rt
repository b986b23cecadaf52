// Pairs in lent bytes, in rising order of variable: one more is put among them, behind equal ones.
ghost use Rattle.std.specs.Prelude.{◌≡◌, ◌+◌, ◌*◌, ◌≤◌, length};
ghost use Rattle.rules.specs.Limits.{pair_bytes};
ghost use Rattle.bodies.specs.Keeping.{with_pair};
ghost use Rattle.bodies.specs.InOrder.{place_of};

use reader::limits::PAIR_BYTES;

// The first of the pairs that has a larger variable, or how many there are.
fn place_of(s: &[u8], at: usize, count: usize, variable: u8) -> usize
    requires { at + pair_bytes * count ≤ length s.now }
    ensures { (result ≡ place_of s.now at count variable) × (result ≤ count) }
{
    for i in 0..count {
        if variable < s[at + PAIR_BYTES * i] {
            return i;
        }
    }
    count
}

// Puts a pair in order into the count pairs from place at on; so many bytes behind them move up.
pub fn insert_pair(s: &mut [u8], at: usize, count: usize, behind: usize, variable: u8, value: u8)
    requires { at + pair_bytes * count + behind + pair_bytes ≤ length s.old }
    ensures { s.new ≡ with_pair s.old at count behind (record { variable = variable; value = value }) }
{
    let from = at + PAIR_BYTES * place_of(s, at, count, variable);
    let end = at + PAIR_BYTES * count + behind;
    s.copy_within(from..end, from + PAIR_BYTES);
    s[from] = variable;
    s[from + 1] = value;
}
