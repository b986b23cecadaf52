// The text of a formula: its header, the line of a clause, and as many lines as fit, over the front of lent room.
ghost use Rattle.std.specs.Prelude.{◌≡◌, length};
ghost use Rattle.rules.specs.Counting.{joined};
ghost use Rattle.rules.specs.Answers.{answer, answer_to};
ghost use Rattle.rules.specs.Families.{clause};
ghost use Rattle.rules.specs.Text.{header_line, clause_line};
ghost use Rattle.rules.specs.Calls.{problem_of, header_verdict, header_after, clause_line_verdict, clause_line_after, lines_from, lines_after};
ghost use Rattle.host.specs.Cells.{counted};
ghost use Rattle.host.specs.Texts.{answer_to_text, lines_in, bytes_in};

use crate::answers::{accept, refuse};
use rules::Refusal;
use text::runs::Run;

fn tell_text(text: Result<Run, Refusal>, bytes: &mut usize, detail: &mut usize) -> usize
    ensures { (answer result detail.new ≡ answer_to_text text) × (bytes.new ≡ bytes_in text) }
{
    match text {
        Ok(run) => {
            *bytes = run.bytes;
            accept(detail)
        }
        Err(why) => {
            *bytes = 0;
            refuse(why, detail)
        }
    }
}

fn lines_in(text: Result<Run, Refusal>) -> usize
    ensures { result ≡ lines_in text }
{
    match text {
        Ok(run) => run.lines,
        Err(_) => 0,
    }
}

// The header with its LF; refusals 1 to 8 and 10.
#[unsafe(no_mangle)]
pub extern "C" fn wawrolen_header(
    file: &[u8],
    horizon: usize,
    room: &mut [u8],
    bytes: &mut usize,
    detail: &mut usize,
) -> usize
    ensures detail_after { answer result detail.new ≡ answer_to (header_verdict file.now horizon (length room.old)) }
    ensures bytes_after { bytes.new
        ≡ counted (header_verdict file.now horizon (length room.old)) (length (header_line (problem_of file.now horizon))) }
    ensures room_after { room.new ≡ header_after file.now horizon room.old }
{
    tell_text(text::calls::header(file, horizon, room), bytes, detail)
}

// The line of clause number c, from 0, with its LF; refusals 1 to 10.
#[unsafe(no_mangle)]
pub extern "C" fn wawrolen_clause_line(
    file: &[u8],
    horizon: usize,
    c: usize,
    room: &mut [u8],
    bytes: &mut usize,
    detail: &mut usize,
) -> usize
    ensures detail_after { answer result detail.new ≡ answer_to (clause_line_verdict file.now horizon c (length room.old)) }
    ensures bytes_after { bytes.new
        ≡ counted (clause_line_verdict file.now horizon c (length room.old)) (length (clause_line (clause (problem_of file.now horizon) c))) }
    ensures room_after { room.new ≡ clause_line_after file.now horizon c room.old }
{
    tell_text(
        text::calls::clause_line(file, horizon, c, room),
        bytes,
        detail,
    )
}

// As many whole lines as fit, from clause number c on; refusals 1 to 10.
#[unsafe(no_mangle)]
pub extern "C" fn wawrolen_lines(
    file: &[u8],
    horizon: usize,
    c: usize,
    room: &mut [u8],
    lines: &mut usize,
    bytes: &mut usize,
    detail: &mut usize,
) -> usize
    ensures detail_after { answer result detail.new ≡ answer_to (clause_line_verdict file.now horizon c (length room.old)) }
    ensures lines_after { lines.new
        ≡ counted (clause_line_verdict file.now horizon c (length room.old)) (length (lines_from file.now horizon c (length room.old))) }
    ensures bytes_after { bytes.new
        ≡ counted (clause_line_verdict file.now horizon c (length room.old)) (length (joined (lines_from file.now horizon c (length room.old)))) }
    ensures room_after { room.new ≡ lines_after file.now horizon c room.old }
{
    let text = text::calls::lines(file, horizon, c, room);
    *lines = lines_in(text);
    tell_text(text, bytes, detail)
}
