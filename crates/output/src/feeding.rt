// A whole output in pieces: lines are read as they end, and what there is of the next one is held in lent bytes.
ghost use Rattle.std.specs.Prelude.{◌≡◌, ◌≤◌, min, length, Ok};
ghost use Rattle.output.specs.Line.{leaves};
ghost use Rattle.output.specs.Feeding.{line_room, room_for, feed_leaves, held_then, line_then, WithoutLF, feed_part, feed_call, finish_call};

use rules::{Reading, Refusal};

// The room that a line needs: one byte more than it may have.
pub const LINE_ROOM: usize = 4097;

// The answer so far, and how many bytes of the line that has begun are held.
#[derive(Clone, Copy)]
pub struct Feed {
    pub answer: Result<Reading, Refusal>,
    pub held: usize,
}

// No byte has been fed.
pub fn begin(reading: Reading) -> Feed
    ensures { (result.answer ≡ Ok reading) × (result.held ≡ 0) }
{
    Feed {
        answer: Ok(reading),
        held: 0,
    }
}

// Whether so many words and bytes are room for the rows of a reading and for a line.
#[tactic(auto, unfolding(crate::specs::Feeding::room_for))]
fn has_room(answer: Result<Reading, Refusal>, given: usize, truth: usize, line: usize) -> bool
    ensures { result ≡ room_for answer given truth line }
{
    if line < LINE_ROOM {
        return false;
    }
    let Ok(reading) = answer else {
        return true;
    };
    crate::rows_fit(reading.highest, given, truth)
}

// Bytes of a line go behind those that are held, as far as there is room; how many are held then.
fn hold(line: &mut [u8], held: usize, part: &[u8]) -> usize
    requires { (held ≤ line_room) × (line_room ≤ length line.old) }
    ensures written { line.new ≡ line_then line.old held part.now }
    ensures behind { result ≡ held_then held (length part.now) }
{
    let most = part.len().min(LINE_ROOM - held);
    digits::put_text(line, held, &part[..most])
}

// Bytes without an LF are held; where an LF follows them, it ends the line.
fn feed_part(
    state: Feed,
    given: &mut [u64],
    truth: &mut [u64],
    line: &mut [u8],
    part: &[u8],
    ends: bool,
) -> Feed
    requires { (line_room ≤ length line.old) × (state.held ≤ line_room) × WithoutLF part.now }
    ensures fed { feed_leaves result given.new truth.new line.new ≡ feed_part (feed_leaves state given.old truth.old line.old) part.now ends }
    ensures held_fits { result.held ≤ line_room }
{
    let answer = state.answer;
    let Ok(reading) = answer else {
        return state;
    };
    let held = hold(line, state.held, part);
    if ends {
        let next = crate::read_line(reading, given, truth, &line[..held]);
        return Feed {
            answer: next,
            held: 0,
        };
    }
    Feed { answer, held }
}

// The next bytes of an output, as many as there are.
pub fn take_bytes(
    state: Feed,
    given: &mut [u64],
    truth: &mut [u64],
    line: &mut [u8],
    bytes: &[u8],
) -> Feed
    ensures { feed_leaves result given.new truth.new line.new ≡ feed_call (feed_leaves state given.old truth.old line.old) bytes.now }
{
    let answer = state.answer;
    if !has_room(answer, given.len(), truth.len(), line.len()) {
        return Feed {
            answer: Err(Refusal::Room),
            held: state.held,
        };
    }
    let held = state.held.min(LINE_ROOM);
    let mut fed = Feed { answer, held };
    let mut at = 0;
    // A `while`: the place jumps behind the line that was read.
    while at < bytes.len() {
        let end = lent_bytes::words::line_end(bytes, at);
        let ends = end < bytes.len();
        fed = feed_part(fed, given, truth, line, &bytes[at..end], ends);
        at = end + 1;
    }
    fed
}

// The end of an output: what is held of a last line without LF is a line too.
pub fn finish(
    state: Feed,
    given: &mut [u64],
    truth: &mut [u64],
    line: &[u8],
) -> Result<Reading, Refusal>
    ensures { leaves result given.new truth.new ≡ finish_call (feed_leaves state given.old truth.old line.now) }
{
    let answer = state.answer;
    if !has_room(answer, given.len(), truth.len(), line.len()) {
        return Err(Refusal::Room);
    }
    let held = state.held.min(LINE_ROOM);
    let Ok(reading) = answer else {
        return answer;
    };
    if held == 0 {
        return answer;
    }
    crate::read_line(reading, given, truth, &line[..held])
}
