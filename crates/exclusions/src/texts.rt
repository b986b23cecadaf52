// The two words of the line "-p -q 0", for q of three to five digits.
ghost use Rattle.std.specs.Prelude.{◌≡◌, ◌≤◌, length};
ghost use Rattle.rules.specs.Limits.{max_n};
ghost use Rattle.rules.specs.Text.{decimal};
ghost use Rattle.exclusions.specs.InTwoWords.{three_digits, head_word, tail_word};

use digits::words::word_of;

// The least numbers of four and of five digits.
const FOUR_DIGITS: usize = 1000;

const FIVE_DIGITS: usize = 10000;

const BYTE_VALUES: u64 = 256;

const DASH: u64 = b'-' as u64;

// What stands between the numbers, " -", and behind the second, " 0" and LF, each as a word.
const BETWEEN: u64 = b' ' as u64 + BYTE_VALUES * b'-' as u64;

const ENDING: u64 = b' ' as u64 + BYTE_VALUES * (b'0' as u64 + BYTE_VALUES * b'\n' as u64);

// The word of the line's beginning.
pub fn head_of(p: usize) -> u64
    requires { p ≤ max_n }
    ensures { result ≡ head_word p }
{
    DASH + BYTE_VALUES * word_of(p, BETWEEN)
}

// The word of its last eight bytes.
pub fn tail_of(q: usize) -> u64
    requires { (three_digits ≤ q) × (q ≤ max_n) }
    ensures { result ≡ tail_word q }
{
    let word = word_of(q, ENDING);
    if FIVE_DIGITS <= q {
        return word;
    }
    if FOUR_DIGITS <= q {
        return DASH + BYTE_VALUES * word;
    }
    BETWEEN + BYTE_VALUES * BYTE_VALUES * word
}

// How many digits q has.
pub fn digits_of(q: usize) -> usize
    requires { (three_digits ≤ q) × (q ≤ max_n) }
    ensures { result ≡ length (decimal q) }
{
    if FIVE_DIGITS <= q {
        return 5;
    }
    if FOUR_DIGITS <= q {
        return 4;
    }
    3
}
