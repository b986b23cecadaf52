// Task files: the verdict on one, and where a body of it stands.
ghost use Rattle.std.specs.Prelude.{◌≡◌, length};
ghost use Rattle.rules.specs.Answers.{answer, answer_to};
ghost use Rattle.rules.specs.File.{file_verdict, contents_verdict, body_asked};
ghost use Rattle.reader.specs.Stretches.{start_asked};

use crate::answers::tell;
use rules::Refusal;
use task::contents::{body_asked, body_start, contents_verdict};
use task::file::file_verdict;
use task::limits::CONTENTS_ROWS;

// Refusals 1 to 7.
#[unsafe(no_mangle)]
pub extern "C" fn wawrolen_check_file(file: &[u8], detail: &mut usize) -> usize
    ensures { answer result detail.new ≡ answer_to (file_verdict file.now) }
{
    tell(file_verdict(file), detail)
}

// Where the body of a number, from 1, starts; 0 where refusal 1 or 2 applies or the file has no such body.
fn start_asked(file: &[u8], number: usize) -> usize
    ensures { result ≡ start_asked file.now number }
{
    let Ok(()) = contents_verdict(file) else {
        return 0;
    };
    if number == 0 {
        return 0;
    }
    if CONTENTS_ROWS < number {
        return 0;
    }
    body_start(file, number - 1)
}

// The stretch of the file that is the body of a number, from 1, and which of the refusals 1 and 2 applies.
#[unsafe(no_mangle)]
pub extern "C" fn wawrolen_body(
    file: &[u8],
    number: usize,
    start: &mut usize,
    size: &mut usize,
    detail: &mut usize,
) -> usize
    ensures detail_after { answer result detail.new ≡ answer_to (contents_verdict file.now) }
    ensures start_after { start.new ≡ start_asked file.now number }
    ensures size_after { size.new ≡ length (body_asked file.now number) }
{
    *start = start_asked(file, number);
    *size = body_asked(file, number).len();
    tell(contents_verdict(file), detail)
}
