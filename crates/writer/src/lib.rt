// Writes a task file from its four bodies.
#![tactic(auto)]

ghost use Rattle.std.specs.Prelude.{◌≡◌, ◌++◌, ◌+◌, ◌*◌, ◌≤◌, ◌<◌, length};
ghost use Rattle.rules.specs.Limits.{byte_values, number_bytes, row_bytes, contents_bytes, max_file};
ghost use Rattle.rules.specs.File.{bytes16};
ghost use Rattle.digits.specs.Over.{over, Wrote};
ghost use Rattle.writer.specs.Laid.{row, rows, contents_by, half, file_length, laid_out};

use reader::limits::{BYTE_VALUES, CONTENTS_BYTES};

// Writes a number in two bytes, the low one first, and answers the place behind them.
fn put_number(room: &mut [u8], at: usize, m: usize) -> usize
    requires { (m < byte_values * byte_values) × (at + number_bytes ≤ length room.old) }
    ensures written { room.new ≡ over room.old at (bytes16 m) }
    ensures behind { result ≡ at + number_bytes }
{
    let high = digits::put_byte(room, at, (m % BYTE_VALUES) as u8);
    digits::put_byte(room, high, (m / BYTE_VALUES) as u8)
}

// Writes a row of the contents, and answers the place behind it.
fn put_row(room: &mut [u8], at: usize, start: usize, len: usize) -> usize
    requires { (start + len < byte_values * byte_values) × (at + row_bytes ≤ length room.old) }
    ensures written { room.new ≡ over room.old at (row start len) }
    ensures behind { result ≡ at + row_bytes }
{
    let place = put_number(room, at, start);
    put_number(room, place, len)
}

// Writes the rows of two bodies of these lengths, and answers the place behind them.
fn put_rows(room: &mut [u8], at: usize, start: usize, first: usize, second: usize) -> usize
    requires { (start + first + second < byte_values * byte_values) × (at + 2 * row_bytes ≤ length room.old) }
    ensures written { room.new ≡ over room.old at (rows start first second) }
    ensures behind { result ≡ at + 2 * row_bytes }
{
    let place = put_row(room, at, start, first);
    put_row(room, place, start + first, second)
}

// How long the file of bodies of these lengths is.
pub fn file_length(sizes: usize, start: usize, goal: usize, actions: usize) -> usize
    requires { file_length sizes start goal actions ≤ max_file }
    ensures { result ≡ file_length sizes start goal actions }
{
    CONTENTS_BYTES + sizes + start + goal + actions
}

// Writes the contents of bodies of these lengths, and answers the place behind them.
fn put_contents(room: &mut [u8], sizes: usize, start: usize, goal: usize, actions: usize) -> usize
    requires { (file_length sizes start goal actions ≤ max_file) × (contents_bytes ≤ length room.old) }
    ensures wrote { Wrote room.old 0 (contents_by sizes start goal actions) room.new result }
    ensures behind { result ≡ contents_bytes }
{
    let half = put_rows(room, 0, CONTENTS_BYTES, sizes, start);
    put_rows(room, half, CONTENTS_BYTES + sizes + start, goal, actions)
}

// Writes two bodies at a place, and answers the place behind them.
fn put_bodies(room: &mut [u8], at: usize, first: &[u8], second: &[u8]) -> usize
    requires { at + length first.now + length second.now ≤ length room.old }
    ensures wrote { Wrote room.old at (first.now ++ second.now) room.new result }
    ensures behind { result ≡ at + length first.now + length second.now }
{
    let place = digits::put_text(room, at, first);
    digits::put_text(room, place, second)
}

// Writes the contents and the first two bodies, and answers the place behind them.
fn put_half(room: &mut [u8], sizes: &[u8], start: &[u8], goal: usize, actions: usize) -> usize
    requires { (file_length (length sizes.now) (length start.now) goal actions ≤ max_file)
        × (file_length (length sizes.now) (length start.now) goal actions ≤ length room.old) }
    ensures wrote { Wrote room.old 0 (half sizes.now start.now goal actions) room.new result }
    ensures behind { result ≡ contents_bytes + length sizes.now + length start.now }
{
    let contents = put_contents(room, sizes.len(), start.len(), goal, actions);
    put_bodies(room, contents, sizes, start)
}

// Writes the file of four bodies over the front of room, and answers its length.
pub fn write_file(room: &mut [u8], sizes: &[u8], start: &[u8], goal: &[u8], actions: &[u8]) -> usize
    requires { (file_length (length sizes.now) (length start.now) (length goal.now) (length actions.now) ≤ max_file)
        × (file_length (length sizes.now) (length start.now) (length goal.now) (length actions.now) ≤ length room.old) }
    ensures written { room.new ≡ over room.old 0 (laid_out sizes.now start.now goal.now actions.now) }
    ensures behind { result ≡ length (laid_out sizes.now start.now goal.now actions.now) }
{
    let half = put_half(room, sizes, start, goal.len(), actions.len());
    put_bodies(room, half, goal, actions)
}
