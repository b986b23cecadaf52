// Text in lent room: bytes, and numbers in decimal.
#![tactic(auto)]

pub mod words;

ghost use Rattle.std.specs.Prelude.{◌≡◌, [], ◌∷◌, ◌+◌, ◌≤◌, ◌<◌, length};
ghost use Rattle.rules.specs.Text.{decimal};
ghost use Rattle.digits.specs.Bound.{past_numbers};
ghost use Rattle.digits.specs.Over.{over};

// How many digits m has.
pub fn digit_count(m: usize) -> usize
    requires { m < past_numbers }
    ensures { result ≡ length (decimal m) }
{
    if m < 10 {
        return 1;
    }
    m.ilog10() as usize + 1
}

// Writes a byte at a place, and answers the place behind it.
pub fn put_byte(out: &mut [u8], at: usize, b: u8) -> usize
    requires { at < length out.old }
    ensures written { out.new ≡ over out.old at (b ∷ []) }
    ensures behind { result ≡ at + 1 }
{
    out[at] = b;
    at + 1
}

// Writes a text at a place, and answers the place behind it.
pub fn put_text(out: &mut [u8], at: usize, text: &[u8]) -> usize
    requires { at + length text.now ≤ length out.old }
    ensures written { out.new ≡ over out.old at text.now }
    ensures behind { result ≡ at + length text.now }
{
    // Not `copy_from_slice`: the archive for C would need the name `memmove` from outside.
    let mut end = at;
    for b in text {
        end = put_byte(out, end, *b);
    }
    end
}

// Writes the digits of m at a place, the last first, and answers the place behind them.
pub fn put(out: &mut [u8], at: usize, m: usize) -> usize
    requires { (m < past_numbers) × (at + length (decimal m) ≤ length out.old) }
    ensures written { out.new ≡ over out.old at (decimal m) }
    ensures behind { result ≡ at + length (decimal m) }
{
    let end = at + digit_count(m);
    let mut i = end - 1;
    let mut rest = m;
    // A number's digits, the last first: how many turns there are is told by the number alone.
    while 10 <= rest {
        out[i] = b'0' + (rest % 10) as u8;
        rest /= 10;
        i -= 1;
    }
    out[i] = b'0' + rest as u8;
    end
}
