// Lines in two words each: eight bytes at a store.
ghost use Rattle.std.specs.Prelude.{◌≡◌, ◌+◌, ◌*◌, ◌≤◌, ◌<◌, ◌^◌, length};
ghost use Rattle.digits.specs.Over.{Wrote};
ghost use Rattle.exclusions.specs.Exclusions.{pair_room};
ghost use Rattle.exclusions.specs.InTwoWords.{word_bytes, one_more, two_words, run_text};

use digits::words::put8;

// The bytes of a word.
const WORD_BYTES: usize = 8;

// The bytes of a line of two numbers of five digits.
pub const WIDE: usize = 16;

// One more in the fifth byte of a word: the last digit of a line's second number.
const ONE_MORE: u64 = 1 << 32;

// A line of so many bytes.
fn put_words(out: &mut [u8], at: usize, head: u64, line: usize, tail: u64) -> usize
    requires { (word_bytes ≤ line) × (line ≤ pair_room) × (at + pair_room ≤ length out.old) }
    ensures written { Wrote out.old at (two_words head line tail) out.new result }
    ensures bytes { result ≡ at + line }
{
    put8(out, at, head);
    let end = at + line;
    put8(out, end - WORD_BYTES, tail);
    end
}

// n lines that differ in the last digit only.
pub fn put_run(out: &mut [u8], at: usize, head: u64, line: usize, first: u64, n: usize) -> usize
    requires { (word_bytes ≤ line) × (line ≤ pair_room) × (first + one_more * n < 2 ^ 64) × (at + pair_room * n ≤ length out.old) }
    ensures written { Wrote out.old at (run_text head line first n) out.new result }
    ensures within { result ≤ at + pair_room * n }
{
    let mut end = at;
    let mut tail = first;
    for _ in 0..n {
        end = put_words(out, end, head, line, tail);
        tail += ONE_MORE;
    }
    end
}

// Two lines, if they are wide.
fn put_two(out: &mut [u8], at: usize, head: u64, first: u64) -> usize
    requires { (first + one_more < 2 ^ 64) × (at + pair_room * 2 ≤ length out.old) }
    ensures written { Wrote out.old at (run_text head pair_room first 2) out.new result }
    ensures within { result ≤ at + pair_room * 2 }
{
    let one = put_words(out, at, head, WIDE, first);
    put_words(out, one, head, WIDE, first + ONE_MORE)
}

// Five lines, if they are wide.
fn put_five(out: &mut [u8], at: usize, head: u64, first: u64) -> usize
    requires { (first + one_more * 5 < 2 ^ 64) × (at + pair_room * 5 ≤ length out.old) }
    ensures written { Wrote out.old at (run_text head pair_room first 5) out.new result }
    ensures within { result ≤ at + pair_room * 5 }
{
    let two = put_two(out, at, head, first);
    let four = put_two(out, two, head, first + 2 * ONE_MORE);
    put_words(out, four, head, WIDE, first + 4 * ONE_MORE)
}

// Ten lines, if they are wide: nearly all lines of a large formula, so without a loop.
pub fn put_wide(out: &mut [u8], at: usize, head: u64, first: u64) -> usize
    requires { (first + one_more * 10 < 2 ^ 64) × (at + pair_room * 10 ≤ length out.old) }
    ensures written { Wrote out.old at (run_text head pair_room first 10) out.new result }
    ensures within { result ≤ at + pair_room * 10 }
{
    let half = put_five(out, at, head, first);
    put_five(out, half, head, first + 5 * ONE_MORE)
}
