// Calls for the text of a formula.
use crate::replies;
use crate::replies::Reply;
use rules::Refusal;
use text::calls;
use text::runs::Run;

// How many bytes one line has.
fn one_line(answer: Result<Run, Refusal>) -> Reply {
    match answer {
        Err(why) => replies::refused(why),
        Ok(run) => replies::counted(run.bytes, 0),
    }
}

pub fn header(file: &[u8], horizon: usize, room: &mut [u8]) -> Reply {
    one_line(calls::header(file, horizon, room))
}

pub fn clause(file: &[u8], horizon: usize, c: usize, room: &mut [u8]) -> Reply {
    one_line(calls::clause_line(file, horizon, c, room))
}

pub fn lines(file: &[u8], horizon: usize, c: usize, room: &mut [u8]) -> Reply {
    match calls::lines(file, horizon, c, room) {
        Err(why) => replies::refused(why),
        Ok(run) => replies::counted(run.lines, run.bytes),
    }
}
