// Where lines and words end, and the value of digits.
ghost use Rattle.std.specs.Prelude.{◌≡◌, ◌≤◌, ◌<◌, ◌-◌, length};
ghost use Rattle.rules.specs.Limits.{byte_values};
ghost use Rattle.rules.specs.Text.{lf, digit0};
ghost use Rattle.rules.specs.Lines.{is_digit, value_from};
ghost use Rattle.lent_bytes.specs.Words.{PieceEnds, EndsAt, most_digits};

// Where the piece that begins at `at` ends: at the next separator, or with the bytes.
fn piece_end(bytes: &[u8], at: usize, separator: u8) -> usize
    requires { at ≤ length bytes.now }
    ensures { PieceEnds separator bytes.now at result }
{
    let rest = &bytes[at..];
    at + rest
        .iter()
        .position(|&b| b == separator)
        .unwrap_or(rest.len())
}

// Where the word that begins at `at` ends: at the next space, or with the line.
pub fn word_end(line: &[u8], at: usize) -> usize
    requires { at ≤ length line.now }
    ensures { EndsAt line.now at result }
{
    piece_end(line, at, b' ')
}

// Where the line that goes on at `at` ends: at the next LF, or with the bytes.
pub fn line_end(bytes: &[u8], at: usize) -> usize
    requires { at ≤ length bytes.now }
    ensures { PieceEnds lf bytes.now at result }
{
    piece_end(bytes, at, b'\n')
}

pub fn is_digit(b: u8) -> bool
    ensures { result ≡ is_digit b }
{
    b.is_ascii_digit()
}

// What a byte is worth as a digit.
fn worth(b: u8) -> usize
    ensures { (result ≡ b - digit0) × (result < byte_values) }
{
    usize::from(b.saturating_sub(b'0'))
}

// The value of a few digits.
pub fn value(digits: &[u8]) -> usize
    requires { length digits.now ≤ most_digits }
    ensures { result ≡ value_from 0 digits.now }
{
    let mut sum = 0;
    for &b in digits {
        sum = 10 * sum + worth(b);
    }
    sum
}
