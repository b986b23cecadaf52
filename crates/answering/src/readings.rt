// Calls that begin a reading of solver output and carry it on.
use crate::replies;
use crate::replies::Reply;
use lent_bytes::words::line_end;
use output::feeding;
use output::feeding::LINE_ROOM;
use rules::{Reading, Refusal};

// N and the phase, or the refusal.
fn reply(answer: Result<Reading, Refusal>) -> Reply {
    match answer {
        Err(why) => replies::refused(why),
        Ok(reading) => {
            let phase = reading.phase;
            replies::counted(reading.highest, replies::phase_number(phase))
        }
    }
}

pub fn start(file: &[u8], horizon: usize, given: &mut [u64], truth: &mut [u64]) -> Reply {
    reply(opening::start(file, horizon, given, truth))
}

pub fn line(reading: Reading, given: &mut [u64], truth: &mut [u64], text: &[u8]) -> Reply {
    reply(output::read_line(reading, given, truth, text))
}

// How many lines were taken, and the phase after them.
fn folded(answer: Result<Reading, Refusal>, lines: usize, reading: Reading) -> Reply {
    let phase = reading.phase;
    let number = replies::phase_number(phase);
    match answer {
        Err(why) => replies::refused_beside(why, lines, number),
        Ok(_) => replies::counted(lines, number),
    }
}

// Each line a call of its own, up to the first refused one.
pub fn fold(first: Reading, given: &mut [u64], truth: &mut [u64], text: &[u8]) -> Reply {
    let mut reading = first;
    let mut lines = 0;
    let mut at = 0;
    // a `while`: what is read says where the next line begins
    while at < text.len() {
        let end = line_end(text, at);
        let answer = output::read_line(reading, given, truth, &text[at..end]);
        let Ok(next) = answer else {
            return folded(answer, lines, reading);
        };
        reading = next;
        lines += 1;
        at = end + 1;
    }
    folded(Ok(reading), lines, reading)
}

// A whole output, fed in pieces of a size; 0 is all at once.
pub fn output(
    reading: Reading,
    size: usize,
    given: &mut [u64],
    truth: &mut [u64],
    text: &[u8],
) -> Reply {
    let mut line = [0u8; LINE_ROOM];
    let mut state = feeding::begin(reading);
    let most = if size == 0 { usize::MAX } else { size };
    for piece in text.chunks(most) {
        state = feeding::take_bytes(state, given, truth, &mut line, piece);
    }
    reply(feeding::finish(state, given, truth, &line))
}
