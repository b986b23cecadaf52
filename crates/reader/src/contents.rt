// The table of contents: refusals 1 and 2, and the bodies that its rows name.
ghost use Rattle.std.specs.Prelude.{◌≡◌, [], ◌+◌, ◌*◌, ◌<◌, ◌≤◌, length, Ok};
ghost use Rattle.rules.specs.Limits.{byte_values, contents_bytes, contents_rows};
ghost use Rattle.rules.specs.File.{byte, word16, body_start, body_length, due_start, row_at_fault, contents_verdict, body, body_asked};
ghost use Rattle.reader.specs.Stretches.{Stretch, start_asked};

use crate::limits::{BYTE_VALUES, CONTENTS_BYTES, CONTENTS_ROWS, MAX_FILE, ROW_BYTES};
use rules::Refusal;

// The byte at place i.
pub fn byte_at(s: &[u8], i: usize) -> usize
    requires { i < length s.now }
    ensures { (result ≡ byte s.now i) × (result < byte_values) }
{
    usize::from(s[i])
}

// Two bytes from place i on, low byte first.
fn word_at(s: &[u8], i: usize) -> usize
    requires { i + 1 < length s.now }
    ensures { (result ≡ word16 s.now i) × (result < byte_values * byte_values) }
{
    byte_at(s, i) + BYTE_VALUES * byte_at(s, i + 1)
}

// Where row `row` says that its body starts.
pub fn body_start(file: &[u8], row: usize) -> usize
    requires { (contents_bytes ≤ length file.now) × (row < contents_rows) }
    ensures { (result ≡ body_start file.now row) × (result < byte_values * byte_values) }
{
    word_at(file, ROW_BYTES * row)
}

// How long row `row` says that its body is.
pub fn body_length(file: &[u8], row: usize) -> usize
    requires { (contents_bytes ≤ length file.now) × (row < contents_rows) }
    ensures { (result ≡ body_length file.now row) × (result < byte_values * byte_values) }
{
    word_at(file, ROW_BYTES * row + 2)
}

// Where the body of row `row` has to start: the first at 16, each next where the last ended.
fn due_start(file: &[u8], row: usize) -> usize
    requires { (contents_bytes ≤ length file.now) × (row ≤ contents_rows) }
    ensures { result ≡ due_start file.now row }
{
    if row == 0 {
        return CONTENTS_BYTES;
    }
    body_start(file, row - 1) + body_length(file, row - 1)
}

// Row `row` breaks the rule by its start, or is the last and has a wrong end.
fn row_at_fault(file: &[u8], row: usize) -> bool
    requires { (contents_bytes ≤ length file.now) × (row < contents_rows) }
    ensures { result ≡ row_at_fault file.now row }
{
    if body_start(file, row) != due_start(file, row) {
        return true;
    }
    if row + 1 < CONTENTS_ROWS {
        return false;
    }
    due_start(file, row + 1) != file.len()
}

// Refusals 1 and 2: which of the two applies, if any.
pub fn contents_verdict(file: &[u8]) -> Result<(), Refusal>
    ensures { result ≡ contents_verdict file.now }
{
    if file.len() < CONTENTS_BYTES {
        return Err(Refusal::FileLength);
    }
    if MAX_FILE < file.len() {
        return Err(Refusal::FileLength);
    }
    for row in 0..CONTENTS_ROWS {
        if row_at_fault(file, row) {
            return Err(Refusal::ContentsRow(row));
        }
    }
    Ok(())
}

// The stretch that row `row` names; for accepted contents only.
pub fn row_body(file: &[u8], row: usize) -> &[u8]
    requires { (contents_verdict file.now ≡ Ok tt) × (row < contents_rows) }
    ensures { Stretch file.entry result (body_start file.now row) (body file.now row) }
{
    let start = body_start(file, row);
    &file[start..start + body_length(file, row)]
}

// The empty part of a file, from its first byte on.
fn no_body(file: &[u8]) -> &[u8]
    ensures { Stretch file.entry result 0 [] }
{
    &file[0..0]
}

// The body of a number, from 1; the empty part where refusal 1 or 2 applies or the file has no such body.
pub fn body_asked(file: &[u8], number: usize) -> &[u8]
    ensures { Stretch file.entry result (start_asked file.now number) (body_asked file.now number) }
{
    let Ok(()) = contents_verdict(file) else {
        return no_body(file);
    };
    if number == 0 {
        return no_body(file);
    }
    if CONTENTS_ROWS < number {
        return no_body(file);
    }
    row_body(file, number - 1)
}
