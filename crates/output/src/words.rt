// Words of a solver's line: what stands between spaces, read as a number.
ghost use Rattle.std.specs.Prelude.{◌≡◌, ◌||◌, ◌≤◌, eqb, length, take};
ghost use Rattle.rules.specs.Limits.{max_digits};
ghost use Rattle.rules.specs.File.{byte};
ghost use Rattle.rules.specs.Text.{space};
ghost use Rattle.rules.specs.Lines.{sign_bytes, reach, value_from};
ghost use Rattle.output.specs.Words.{digit_run, reached_value, word_of};

const MAX_DIGITS: usize = 6;

// The variable that a word names, 0 for the closing number, and whether it is negated.
#[derive(Clone, Copy)]
pub struct Number {
    pub variable: usize,
    pub negative: bool,
}

// So many first bytes, and the value of the digits among them.
#[derive(Clone, Copy)]
struct Run {
    bytes: usize,
    value: usize,
}

// Whether a line's first byte is all of it, or a space follows.
pub fn stands_alone(line: &[u8]) -> bool
    ensures { result ≡ (eqb (length line.now) 1 || eqb (byte line.now 1) space) }
{
    line.len() == 1 || lent_bytes::byte_at(line, 1) == b' '
}

// 1 where a word begins with a minus.
fn sign_bytes(word: &[u8]) -> usize
    ensures { (result ≡ sign_bytes word.now) × (result ≤ length word.now) }
{
    if lent_bytes::byte_at(word, 0) == b'-' {
        return 1;
    }
    0
}

// The digits that the bytes begin with, six at most.
fn digit_run(bytes: &[u8]) -> Run
    ensures digits { (result.bytes ≡ digit_run bytes.now) × (result.bytes ≤ max_digits) }
    ensures value { result.value ≡ value_from 0 (take result.bytes bytes.now) }
{
    let most = bytes.len().min(MAX_DIGITS);
    let mut value = 0;
    for i in 0..most {
        let b = bytes[i];
        if !lent_bytes::words::is_digit(b) {
            return Run { bytes: i, value };
        }
        value = 10 * value + usize::from(b - b'0');
    }
    Run { bytes: most, value }
}

// The first bytes of a word that can begin a number.
fn reach_of(word: &[u8], sign: usize) -> Run
    requires { (sign ≡ sign_bytes word.now) × (sign ≤ length word.now) }
    ensures { (result.bytes ≡ reach word.now) × (result.value ≡ reached_value word.now) }
{
    let digits = &word[sign..];
    if lent_bytes::byte_at(digits, 0) == b'0' {
        return Run { bytes: 1, value: 0 };
    }
    let run = digit_run(digits);
    Run {
        bytes: sign + run.bytes,
        value: run.value,
    }
}

// A word as a number, or how many of its first bytes can begin one.
pub fn word_of(word: &[u8]) -> Result<Number, usize>
    ensures { result ≡ word_of word.now }
{
    let sign = sign_bytes(word);
    let run = reach_of(word, sign);
    let reached = run.bytes;
    if reached != word.len() {
        return Err(reached);
    }
    if reached <= sign {
        return Err(reached);
    }
    Ok(Number {
        variable: run.value,
        negative: sign == 1,
    })
}
