// A line of each shape: the rules of its shape in their order, then the numbers that it says.
#![tactic(auto, unfolding(crate::specs::Says::shape_says, crate::specs::Says::numbers_in, crate::specs::Says::is_fact, crate::specs::Says::is_signed, crate::specs::Says::is_effect, rules::specs::Format::line_rules, rules::specs::Format::line_number, rules::specs::Format::number_at, rules::specs::Answers::judge))]

ghost use Rattle.std.specs.Prelude.{true, ◌≡◌};
ghost use Rattle.rules.specs.Format.{keyword, version, metric, layer, effect, axiom_count, word_at};
ghost use Rattle.textlines.specs.Says.{says_nothing, against_format, old_in, shape_says, a_number, a_fact, is_signed, is_effect};

use crate::{Numbers, is_fact, plain, words};
use rules::Refusal;

const FORMAT_VERSION: usize = 3;

const HIGHEST_METRIC: usize = 1;

// The words of a fact's line: the variable and its value.
const FACT_VARIABLE_AT: usize = 0;

const FACT_VALUE_AT: usize = 1;

// The words of an effect's line: the count of its conditions, the variable, its old and its new value.
const EFFECT_WORDS: usize = 4;

const VARIABLE_AT: usize = 1;

const OLD_AT: usize = 2;

const NEW_AT: usize = 3;

pub fn nothing_said() -> Result<Numbers, Refusal>
    ensures { result ≡ says_nothing }
{
    Ok(Numbers {
        first: 0,
        second: 0,
        old: None,
    })
}

pub fn against_format(at: usize) -> Result<Numbers, Refusal>
    ensures { result ≡ against_format at }
{
    Err(Refusal::AgainstFormat(at))
}

pub fn keyword_line(at: usize, line: &[u8], word: &[u8]) -> Result<Numbers, Refusal>
    ensures { result ≡ shape_says (keyword word.now) at line.now }
{
    if !lent_bytes::texts::is_same(line, word) {
        return against_format(at);
    }
    nothing_said()
}

pub fn version_line(at: usize, line: &[u8]) -> Result<Numbers, Refusal>
    ensures { result ≡ shape_says version at line.now }
{
    if !plain::is_plain(line) {
        return against_format(at);
    }
    if plain::number(line) != FORMAT_VERSION {
        return Err(Refusal::OtherVersion(at));
    }
    nothing_said()
}

pub fn metric_line(at: usize, line: &[u8]) -> Result<Numbers, Refusal>
    ensures { result ≡ shape_says metric at line.now }
{
    if !plain::is_plain(line) {
        return against_format(at);
    }
    if HIGHEST_METRIC < plain::number(line) {
        return against_format(at);
    }
    nothing_said()
}

// A variable's axiom layer: any other than -1 is refused before the rest of its line is read.
pub fn layer_line(at: usize, line: &[u8]) -> Result<Numbers, Refusal>
    ensures { result ≡ shape_says layer at line.now }
{
    let first = words::word_at(line, 0);
    if !plain::is_signed(first) {
        return against_format(at);
    }
    if !plain::is_minus_one(first) {
        return Err(Refusal::AxiomOrCondition(at));
    }
    if !words::has_words(line, 1) {
        return against_format(at);
    }
    nothing_said()
}

// A line that is one number.
pub fn number_line(at: usize, line: &[u8]) -> Result<Numbers, Refusal>
    ensures { result ≡ shape_says a_number at line.now }
{
    if !plain::is_plain(line) {
        return against_format(at);
    }
    Ok(Numbers {
        first: plain::number(line),
        second: 0,
        old: None,
    })
}

// A variable and a value.
pub fn fact_line(at: usize, line: &[u8]) -> Result<Numbers, Refusal>
    ensures { result ≡ shape_says a_fact at line.now }
{
    if !is_fact(line) {
        return against_format(at);
    }
    Ok(Numbers {
        first: plain::number_at(line, FACT_VARIABLE_AT),
        second: plain::number_at(line, FACT_VALUE_AT),
        old: None,
    })
}

// Whether a line without conditions is an effect's.
fn is_effect(line: &[u8]) -> bool
    ensures { result ≡ is_effect line.now }
{
    words::has_words(line, EFFECT_WORDS)
        && plain::is_plain_at(line, VARIABLE_AT)
        && plain::is_signed(words::word_at(line, OLD_AT))
        && plain::is_plain_at(line, NEW_AT)
}

// The old value that an effect's line says.
fn old_in(line: &[u8]) -> Option<usize>
    requires { is_signed (word_at line.now 2) ≡ true }
    ensures { result ≡ old_in line.now }
{
    let old = words::word_at(line, OLD_AT);
    if plain::is_minus_one(old) {
        return None;
    }
    Some(plain::number(old))
}

// An effect: the count of its conditions, which is 0 or refused before the rest is read, the variable, its old and its new value.
pub fn effect_line(at: usize, line: &[u8]) -> Result<Numbers, Refusal>
    ensures { result ≡ shape_says effect at line.now }
{
    if !plain::is_plain_at(line, 0) {
        return against_format(at);
    }
    if plain::number_at(line, 0) != 0 {
        return Err(Refusal::AxiomOrCondition(at));
    }
    if !is_effect(line) {
        return against_format(at);
    }
    Ok(Numbers {
        first: plain::number_at(line, VARIABLE_AT),
        second: plain::number_at(line, NEW_AT),
        old: old_in(line),
    })
}

// The count of axioms: any other than 0 is refused before the rest of its line is read.
pub fn axiom_count_line(at: usize, line: &[u8]) -> Result<Numbers, Refusal>
    ensures { result ≡ shape_says axiom_count at line.now }
{
    if !plain::is_plain_at(line, 0) {
        return against_format(at);
    }
    if plain::number_at(line, 0) != 0 {
        return Err(Refusal::AxiomOrCondition(at));
    }
    if !words::has_words(line, 1) {
        return against_format(at);
    }
    nothing_said()
}
