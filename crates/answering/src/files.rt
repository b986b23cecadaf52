// Calls on a task file and its clauses.
ghost use Rattle.std.specs.Prelude.{◌≡◌, Ok};
ghost use Rattle.rules.specs.File.{file_verdict};

use crate::replies;
use crate::replies::Reply;
use reader::contents;
use task::index::INDEX_LENGTH;
use task::indexed::IndexedFile;

const BODIES: usize = 4;

// What an answer has in place of the start of a body that is not there.
const NO_START: usize = 0;

// What an answer has in place of the end of a part that is not the stretch which it has to be: no file is so long.
const NO_STRETCH: usize = 18446744073709551615;

// n and A of an accepted file.
fn sizes(file: &[u8]) -> Reply
    requires { file_verdict file.now ≡ Ok tt }
{
    let mut index = [0u16; INDEX_LENGTH];
    task::filling::fill_index(file, &mut index);
    let task = IndexedFile {
        file,
        index: &index,
    };
    replies::counted(task::asked::variables(file), task::index::actions(&task))
}

pub fn judge(file: &[u8]) -> Reply {
    let verdict = reader::file::file_verdict(file);
    let Ok(()) = verdict else {
        return replies::judged(verdict);
    };
    sizes(file)
}

// Where the body of a number starts, if there is one.
fn start_of(file: &[u8], number: usize) -> Option<usize> {
    let Ok(()) = contents::contents_verdict(file) else {
        return None;
    };
    if number == 0 || BODIES < number {
        return None;
    }
    Some(contents::body_start(file, number - 1))
}

// Where a part ends, if it is the stretch of a file from a place on.
fn stretch_end(file: &[u8], start: usize, part: &[u8]) -> Option<usize> {
    if file.get(start..)?.starts_with(part) {
        return Some(start + part.len());
    }
    None
}

// The stretch of a body, beside which of refusals 1 and 2 applies.
pub fn body(file: &[u8], number: usize) -> Reply {
    let verdict = contents::contents_verdict(file);
    let start = start_of(file, number).unwrap_or(NO_START);
    let end = stretch_end(file, start, contents::body_asked(file, number));
    replies::judged_beside(verdict, start, end.unwrap_or(NO_STRETCH))
}

pub fn counts(file: &[u8], horizon: usize) -> Reply {
    match formula::calls::counts(file, horizon) {
        Err(why) => replies::refused(why),
        Ok(counts) => replies::counted(counts.variables, counts.clauses),
    }
}

pub fn literals(file: &[u8], horizon: usize, c: usize, out: &mut [i32]) -> Reply {
    match formula::calls::literals(file, horizon, c, out) {
        Err(why) => replies::refused(why),
        Ok(count) => replies::counted(count, 0),
    }
}
