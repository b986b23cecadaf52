// What the programs print, in lent room: the entries of a schedule, the line of a refusal.
#![tactic(auto)]

ghost use Rattle.std.specs.Prelude.{◌≡◌, ◌+◌, ◌*◌, ◌%◌, ◌≤◌, length};
ghost use Rattle.rules.specs.Text.{digit0, decimal, refusal_line};
ghost use Rattle.rules.specs.Programs.{schedule_text};
ghost use Rattle.digits.specs.Over.{over};
ghost use Rattle.printing.specs.Printed.{ended, refused_word, number_room, ended_room, refusal_room};

use refusals::{detail_of, number_of};
use rules::Refusal;

// The numbers below this have at most 18 digits.
const PAST_SHORT: usize = 1000000000000000000;

// The byte of the last digit of m.
fn last_digit(m: usize) -> u8
    ensures { result ≡ digit0 + m % 10 }
{
    b'0' + (m % 10) as u8
}

// Writes m in decimal at a place, and answers the place behind it.
fn put_number(out: &mut [u8], at: usize, m: usize) -> usize
    requires { at + number_room ≤ length out.old }
    ensures written { out.new ≡ over out.old at (decimal m) }
    ensures behind { result ≡ at + length (decimal m) }
    ensures few { result ≤ at + number_room }
{
    if m < PAST_SHORT {
        return digits::put(out, at, m);
    }
    let hundreds = digits::put(out, at, m / 100);
    let tens = digits::put_byte(out, hundreds, last_digit(m / 10));
    digits::put_byte(out, tens, last_digit(m))
}

// Writes m in decimal and a byte that ends it, and answers the place behind them.
fn put_ended(out: &mut [u8], at: usize, m: usize, end: u8) -> usize
    requires { at + ended_room ≤ length out.old }
    ensures written { out.new ≡ over out.old at (ended m end) }
    ensures behind { result ≡ at + length (ended m end) }
    ensures few { result ≤ at + ended_room }
{
    let place = put_number(out, at, m);
    digits::put_byte(out, place, end)
}

// Writes a line for each entry, and answers how many bytes that are.
pub fn schedule_text(out: &mut [u8], entries: &[u32]) -> usize
    requires { ended_room * length entries.now ≤ length out.old }
    ensures written { out.new ≡ over out.old 0 (schedule_text entries.now) }
    ensures behind { result ≡ length (schedule_text entries.now) }
{
    let mut at = 0;
    for &entry in entries {
        at = put_ended(out, at, entry as usize, b'\n');
    }
    at
}

// Writes what the line of a refusal begins with, and answers how many bytes that are.
fn put_refused(out: &mut [u8]) -> usize
    requires { length refused_word ≤ length out.old }
    ensures written { out.new ≡ over out.old 0 refused_word }
    ensures behind { result ≡ length refused_word }
{
    digits::put_text(out, 0, b"refused ")
}

// Writes the line of a refusal, and answers how many bytes that are.
pub fn refusal_line(out: &mut [u8], why: Refusal) -> usize
    requires { refusal_room ≤ length out.old }
    ensures written { out.new ≡ over out.old 0 (refusal_line why) }
    ensures behind { result ≡ length (refusal_line why) }
{
    let number = put_refused(out);
    let detail = put_ended(out, number, number_of(why), b' ');
    put_ended(out, detail, detail_of(why), b'\n')
}
