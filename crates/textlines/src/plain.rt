// Numbers of a line: at most six digits, no leading zero; -1 stands apart.
ghost use Rattle.std.specs.Prelude.{true, ◌≡◌};
ghost use Rattle.rules.specs.Counting.{every};
ghost use Rattle.rules.specs.Lines.{is_digit, value_from};
ghost use Rattle.rules.specs.Format.{word_at, is_plain, is_minus_one, number_at};
ghost use Rattle.textlines.specs.Says.{is_signed};

use crate::words;

const MAX_DIGITS: usize = 6;

fn all_digits(word: &[u8]) -> bool
    ensures { result ≡ every is_digit word.now }
{
    word.iter().all(|&b| lent_bytes::words::is_digit(b))
}

// Whether a word is a number.
#[tactic(auto, unfolding(rules::specs::Format::is_plain))]
pub fn is_plain(word: &[u8]) -> bool
    ensures { result ≡ is_plain word.now }
{
    !word.is_empty()
        && word.len() <= MAX_DIGITS
        && all_digits(word)
        && (word.len() == 1 || word[0] != b'0')
}

#[tactic(auto, unfolding(rules::specs::Text::ascii, rules::specs::Format::is_minus_one))]
pub fn is_minus_one(word: &[u8]) -> bool
    ensures { result ≡ is_minus_one word.now }
{
    lent_bytes::texts::is_same(word, b"-1")
}

// Whether a word is a number or -1.
#[tactic(auto, unfolding(crate::specs::Says::is_signed))]
pub fn is_signed(word: &[u8]) -> bool
    ensures { result ≡ is_signed word.now }
{
    is_plain(word) || is_minus_one(word)
}

// The number that a word is.
pub fn number(word: &[u8]) -> usize
    requires { is_plain word.now ≡ true }
    ensures { result ≡ value_from 0 word.now }
{
    lent_bytes::words::value(word)
}

// Whether word i of a line is a number.
pub fn is_plain_at(line: &[u8], i: usize) -> bool
    ensures { result ≡ is_plain (word_at line.now i) }
{
    is_plain(words::word_at(line, i))
}

// The number that word i of a line is.
#[tactic(auto, unfolding(rules::specs::Format::number_at))]
pub fn number_at(line: &[u8], i: usize) -> usize
    requires { is_plain (word_at line.now i) ≡ true }
    ensures { result ≡ number_at line.now i }
{
    number(words::word_at(line, i))
}
