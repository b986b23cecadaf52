// Rows of bits in lent words: 64 to a word from the lowest bit up, variable 1 first.
#![tactic(auto)]

ghost use Rattle.std.specs.Prelude.{◌≡◌, ◌+◌, ◌-◌, ◌/◌, ◌%◌, ◌^◌, ◌<◌, ◌≤◌, min, length, get_or, replicate};
ghost use Rattle.rules.specs.Rows.{word_bits, words_for, with_bit, bit_of_variable, with_variable, over_row};
ghost use Rattle.rules.specs.Counting.{first};
ghost use Rattle.rows.specs.Bits.{counts_true, counted_word, set_from};
ghost use Rattle.rows.specs.Bound.{most_variables};
ghost use Rattle.rows.specs.Lent.{lent};
ghost use Rattle.rows.specs.Stretch.{set_below, LowestSet, count_set};

const WORD_BITS: usize = 64;

// The words that m bits need.
pub fn words_for(m: usize) -> usize
    ensures { result ≡ words_for m }
{
    m.div_ceil(WORD_BITS)
}

// Whether a variable's bit is set; behind the row no bit is.
pub fn is_set(row: &[u64], variable: usize) -> bool
    requires { 0 < variable }
    ensures { result ≡ bit_of_variable row.now variable }
{
    let place = variable - 1;
    (word_at(row, place / WORD_BITS) >> (place % WORD_BITS)) % 2 == 1
}

// The word with a bit written: set, or set and then less its worth.
fn with_bit(word: u64, bit: usize, on: bool) -> u64
    requires { bit < word_bits }
    ensures { result ≡ with_bit word bit on }
{
    let worth = 1u64 << bit;
    if on {
        return word | worth;
    }
    (word | worth) - worth
}

// A variable's bit is written; behind the row there is nothing to write.
pub fn set_bit(row: &mut [u64], variable: usize, on: bool)
    requires { 0 < variable }
    ensures { row.new ≡ with_variable row.old variable on }
{
    let place = variable - 1;
    let at = place / WORD_BITS;
    if at < row.len() {
        row[at] = with_bit(row[at], place % WORD_BITS, on);
    }
}

// The first words of a row are set to 0.
pub fn clear(row: &mut [u64], words: usize)
    requires { words ≤ length row.old }
    ensures { row.new ≡ over_row (replicate words 0) row.old }
{
    row[..words].fill(0);
}

// The word of a row; behind the row it is 0.
fn word_at(row: &[u64], at: usize) -> u64
    ensures { result ≡ get_or row.now at 0 }
{
    row.get(at).copied().unwrap_or(0)
}

// A word of both rows in one: the truth of what is given, and what is not given counts as `unnamed`.
fn counted_word(given: u64, truth: u64, unnamed: bool) -> u64
    ensures { result ≡ counted_word unnamed given truth }
{
    if unnamed {
        return truth | (given ^ u64::MAX);
    }
    given & truth
}

// The bits of both rows from a place on, as far as its word goes.
fn bits_from(given: &[u64], truth: &[u64], unnamed: bool, place: usize) -> u64
    ensures { result ≡ counted_word unnamed (get_or given.now (place / word_bits) 0) (get_or truth.now (place / word_bits) 0) / 2 ^ (place % word_bits) }
{
    let at = place / WORD_BITS;
    let word = counted_word(word_at(given, at), word_at(truth, at), unnamed);
    word >> (place % WORD_BITS)
}

// How many of the `left` bits from a place on stand in its word.
fn in_word(place: usize, left: usize) -> usize
    ensures { result ≡ min (word_bits - place % word_bits) left }
{
    (WORD_BITS - place % WORD_BITS).min(left)
}

// How many of the lowest `size` bits of a word are set: the ones of the masked word.
fn ones_below(bits: u64, size: usize) -> usize
    requires { (0 < size) × (size ≤ word_bits) }
    ensures { (result ≡ set_below bits size) × (result ≤ size) }
{
    u64::count_ones(bits & (u64::MAX >> (WORD_BITS - size))) as usize
}

// Where the lowest set bit of a word stands: the zeros below it.
fn lowest_set(bits: u64) -> usize
    ensures { LowestSet bits result }
{
    u64::trailing_zeros(bits) as usize
}

// Whether a variable counts as true, where one that is not given counts as `unnamed`.
pub fn counts_true(given: &[u64], truth: &[u64], unnamed: bool, variable: usize) -> bool
    requires { 0 < variable }
    ensures { result ≡ counts_true unnamed (lent given.now truth.now) variable }
{
    if is_set(given, variable) {
        return is_set(truth, variable);
    }
    unnamed
}

// How many of the `many` variables from `from` on count as true.
pub fn count_set(given: &[u64], truth: &[u64], unnamed: bool, from: usize, many: usize) -> usize
    requires { (0 < from) × (from + many < 2 ^ 64) }
    ensures { result ≡ count_set (counts_true unnamed (lent given.now truth.now)) from many }
{
    let mut count = 0;
    let mut done = 0;
    // Each turn goes on by as many variables as stand in one word.
    while done < many {
        let place = from - 1 + done;
        let size = in_word(place, many - done);
        count += ones_below(bits_from(given, truth, unnamed, place), size);
        done += size;
    }
    count
}

// Which of the `many` variables from `from` on is the first that counts as true, counted from 0; `many` where none does.
pub fn first_set(given: &[u64], truth: &[u64], unnamed: bool, from: usize, many: usize) -> usize
    requires { (0 < from) × (from + many < most_variables) }
    ensures { result ≡ first many (set_from (counts_true unnamed (lent given.now truth.now)) from) }
{
    let mut done = 0;
    // Each turn goes on by as many variables as stand in one word.
    while done < many {
        let place = from - 1 + done;
        let size = in_word(place, many - done);
        let lowest = lowest_set(bits_from(given, truth, unnamed, place));
        if lowest < size {
            return done + lowest;
        }
        done += size;
    }
    many
}
