// Answers a stream of texts by the proved code. A case is the length of the lent room, the length of the pieces in which its text is taken in (0: the
// whole text by `translate`), the length of the text, four bytes each with the low byte first, and the text. The answer is the number in one byte, the
// detail in eight, and the room after the call; before the call all its bytes are FILLED. A case that is cut off, or wider than the room here, ends the
// stream of answers.
#![tactic(auto)]

ghost use Rattle.std.specs.Prelude.{◌<◌};

use reader::limits::{BYTE_VALUES, MAX_VARIABLES};
use refusals::{detail_of, number_of};
use rules::Refusal;
use showing::streams::{Input, Output};
use std::io::Read;
use translator::ending::finish;
use translator::intake::{Intake, begin, take_bytes};
use translator::room::{ACTIONS_ROOM, GOAL_ROOM, HEAD_ROOM};
use translator::translate;

const TEXT_BYTES: usize = 262144;

const ROOM_BYTES: usize = 20000;

// A number of the head.
const NUMBER_BYTES: usize = 4;

const HEAD_BYTES: usize = 12;

// A number in one byte, and a detail.
const ANSWER_BYTES: usize = 9;

const FILLED: u8 = 165;

fn take_pieces(
    text: &[u8],
    piece: usize,
    sizes: &mut [u8],
    start: &mut [u8],
    goal: &mut [u8],
    actions: &mut [u8],
    line: &mut [u8],
) -> Intake
    requires { 0 < piece }
{
    let mut state = begin();
    for bytes in text.chunks(piece) {
        state = take_bytes(state, sizes, start, goal, actions, line, bytes);
    }
    state
}

fn in_pieces(text: &[u8], piece: usize, room: &mut [u8]) -> Result<usize, Refusal>
    requires { 0 < piece }
{
    let mut sizes = [0u8; MAX_VARIABLES];
    let mut start = [0u8; MAX_VARIABLES];
    let mut goal = [0u8; GOAL_ROOM];
    let mut actions = [0u8; ACTIONS_ROOM];
    let mut line = [0u8; HEAD_ROOM];
    let state = take_pieces(
        text,
        piece,
        &mut sizes,
        &mut start,
        &mut goal,
        &mut actions,
        &mut line,
    );
    finish(state, &sizes, &start, &goal, &actions, &line, room)
}

fn answer_to(text: &[u8], piece: usize, room: &mut [u8]) -> Result<usize, Refusal> {
    if piece == 0 {
        return translate(text, room);
    }
    in_pieces(text, piece, room)
}

// Nothing where the answer cannot be written.
fn reply(output: &impl Print, number: usize, detail: usize, room: &[u8]) -> Option<()> {
    let mut answer = [0u8; ANSWER_BYTES];
    answer[0] = (number % BYTE_VALUES) as u8;
    answer[1..].copy_from_slice(&(detail as u64).to_le_bytes());
    output.write_all(&answer).ok()?;
    output.write_all(room).ok()
}

fn reply_to(output: &impl Print, text: &[u8], piece: usize, room: &mut [u8]) -> Option<()> {
    room.fill(FILLED);
    match answer_to(text, piece, room) {
        Ok(_) => reply(output, 0, 0, room),
        Err(why) => reply(output, number_of(why), detail_of(why), room),
    }
}

// Nothing where there was no case, or its answer cannot be written.
fn next_case(
    input: &mut impl Read,
    output: &impl Print,
    text: &mut [u8],
    room: &mut [u8],
) -> Option<()> {
    // one read, as a packet is lost behind what is read of it
    let mut head = [0u8; HEAD_BYTES];
    input.read_exact(&mut head).ok()?;
    let ([lent, piece, long], _) = head.as_chunks::<NUMBER_BYTES>() else {
        return None;
    };
    let room = room.get_mut(..u32::from_le_bytes(*lent) as usize)?;
    let text = text.get_mut(..u32::from_le_bytes(*long) as usize)?;
    input.read_exact(text).ok()?;
    reply_to(output, text, u32::from_le_bytes(*piece) as usize, room)
}

fn main() {
    let mut input = Input;
    let mut text = [0u8; TEXT_BYTES];
    let mut room = [0u8; ROOM_BYTES];
    // nothing says that standard input ends
    for _ in 0..u64::MAX {
        if next_case(&mut input, &Output::Standard, &mut text, &mut room).is_none() {
            return;
        }
    }
}
