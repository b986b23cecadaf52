// Text in a word of 64 bits, for text that is made once and written often: eight bytes at a store.
ghost use Rattle.std.specs.Prelude.{◌≡◌, ◌+◌, ◌≤◌, ◌<◌, ◌^◌, length};
ghost use Rattle.rules.specs.Text.{decimal};
ghost use Rattle.digits.specs.Over.{over};
ghost use Rattle.digits.specs.Word.{in_word, low_bytes};

// The byte of the digit 0.
const DIGIT0: u64 = b'0' as u64;

// How many values a byte has.
const BYTE_VALUES: u64 = 256;

// The digits of m, the first lowest, with the number high above them.
pub fn word_of(m: usize, high: u64) -> u64
    requires { in_word (decimal m) high < 2 ^ 64 }
    ensures { result ≡ in_word (decimal m) high }
{
    let mut w = high;
    let mut rest = m as u64;
    // A number's digits, the last first: how many turns there are is told by the number alone.
    while 10 <= rest {
        w = DIGIT0 + rest % 10 + BYTE_VALUES * w;
        rest /= 10;
    }
    DIGIT0 + rest + BYTE_VALUES * w
}

// Writes all eight bytes of a word, the lowest first.
pub fn put8(out: &mut [u8], at: usize, w: u64)
    requires { at + 8 ≤ length out.old }
    ensures { out.new ≡ over out.old at (low_bytes 8 w) }
{
    out[at..at + 8].copy_from_slice(&w.to_le_bytes());
}
