// The translator program: the Fast Downward translator's text on standard input; the bytes of its task file, or one line `refused N D`, on
// standard output. All that it does here is to move bytes.
#![tactic(auto)]

ghost use Rattle.std.specs.Prelude.{◌≡◌, ◌*◌, ◌≤◌, length};
ghost use Rattle.rules.specs.Limits.{max_file};
ghost use Rattle.translator.specs.Intake.{memory, Lent, head_room, taken, take_call, begun};
ghost use Rattle.translate.specs.Parts.{part_room, most_parts, FedSome, end_text, Shown, ShownBehind, Answered};

use reader::limits::{MAX_FILE, MAX_VARIABLES};
use translator::ending::finish;
use translator::intake::{Intake, begin, take_bytes};
use translator::room::{ACTIONS_ROOM, GOAL_ROOM, HEAD_ROOM};

// Standard input, by its number. By the kit's `io`, where a read that fails is the end: so the functions here promise what they do without an error.
const STDIN_FILENO: i32 = 0;

// Standard output, by its number.
const STDOUT_FILENO: i32 = 1;

// The bytes of a part.
const PART_ROOM: usize = 65536;

// More parts than any input has: 2^63 bytes, with the first.
const MOST_PARTS: usize = 140737488355327;

// The next part is read: how many bytes it has.
fn read_part(part: &mut [u8]) -> usize
    requires { part_room ≡ length part.old }
    ensures { (result ≤ length part.new) × (part_room ≡ length part.new) }
{
    io::read_full(STDIN_FILENO, part)
}

// The parts behind the first are read and taken in.
fn take_parts(
    state: Intake,
    sizes: &mut [u8],
    start: &mut [u8],
    goal: &mut [u8],
    actions: &mut [u8],
    line: &mut [u8],
) -> Intake
    ensures { FedSome (taken state (memory sizes.old start.old goal.old actions.old) line.old)
        (taken result (memory sizes.new start.new goal.new actions.new) line.new) (part_room * most_parts) }
{
    let mut part = io::large_buffer();
    let mut fed = state;
    for _ in 0..MOST_PARTS {
        let n = read_part(&mut part);
        if n == 0 {
            return fed;
        }
        fed = take_bytes(fed, sizes, start, goal, actions, line, &part[..n]);
    }
    fed
}

// The text ends: what is to be printed stands first in `room`; how many bytes that are.
fn end_text(
    state: Intake,
    sizes: &[u8],
    start: &[u8],
    goal: &[u8],
    actions: &[u8],
    line: &[u8],
    room: &mut [u8],
) -> usize
    requires { max_file ≡ length room.old }
    ensures { Shown (end_text (taken state (memory sizes.now start.now goal.now actions.now) line.now) room.old) room.new result }
{
    match finish(state, sizes, start, goal, actions, line, room) {
        Ok(bytes) => bytes,
        Err(why) => printing::refusal_line(room, why),
    }
}

// The parts behind the first are read and taken in, and the text ends.
fn end_parts(
    state: Intake,
    sizes: &mut [u8],
    start: &mut [u8],
    goal: &mut [u8],
    actions: &mut [u8],
    line: &mut [u8],
    room: &mut [u8],
) -> usize
    requires { max_file ≡ length room.old }
    ensures { ShownBehind (taken state (memory sizes.old start.old goal.old actions.old) line.old) room.old room.new result }
{
    let fed = take_parts(state, sizes, start, goal, actions, line);
    end_text(fed, sizes, start, goal, actions, line, room)
}

// The first part is taken in.
fn take_first(
    first: &[u8],
    sizes: &mut [u8],
    start: &mut [u8],
    goal: &mut [u8],
    actions: &mut [u8],
    line: &mut [u8],
) -> Intake
    ensures { taken result (memory sizes.new start.new goal.new actions.new) line.new ≡ take_call (taken begun (memory sizes.old start.old goal.old actions.old) line.old) first.now }
{
    take_bytes(begin(), sizes, start, goal, actions, line, first)
}

// The input is the first part.
fn answer_first(
    first: &[u8],
    sizes: &mut [u8],
    start: &mut [u8],
    goal: &mut [u8],
    actions: &mut [u8],
    line: &mut [u8],
    room: &mut [u8],
) -> usize
    requires { max_file ≡ length room.old }
    ensures { Shown (end_text (take_call (taken begun (memory sizes.old start.old goal.old actions.old) line.old) first.now) room.old) room.new result }
{
    let state = take_first(first, sizes, start, goal, actions, line);
    end_text(state, sizes, start, goal, actions, line, room)
}

// More may follow the first part.
fn answer_parts(
    first: &[u8],
    sizes: &mut [u8],
    start: &mut [u8],
    goal: &mut [u8],
    actions: &mut [u8],
    line: &mut [u8],
    room: &mut [u8],
) -> usize
    requires { max_file ≡ length room.old }
    ensures { ShownBehind (take_call (taken begun (memory sizes.old start.old goal.old actions.old) line.old) first.now) room.old room.new result }
{
    let state = take_first(first, sizes, start, goal, actions, line);
    end_parts(state, sizes, start, goal, actions, line, room)
}

// What is to be printed stands first in `room`; how many bytes that are. Parts are read only behind a first part that is full.
fn answer(
    first: &[u8],
    sizes: &mut [u8],
    start: &mut [u8],
    goal: &mut [u8],
    actions: &mut [u8],
    line: &mut [u8],
    room: &mut [u8],
) -> usize
    requires lent { Lent (memory sizes.old start.old goal.old actions.old) × (head_room ≤ length line.old) }
    requires rooms { (length first.now ≤ part_room) × (max_file ≡ length room.old) }
    ensures { Answered first.now room.new result }
{
    if first.len() < PART_ROOM {
        return answer_first(first, sizes, start, goal, actions, line, room);
    }
    answer_parts(first, sizes, start, goal, actions, line, room)
}

fn main() {
    let mut first = io::large_buffer();
    let mut sizes = [0u8; MAX_VARIABLES];
    let mut start = [0u8; MAX_VARIABLES];
    let mut goal = [0u8; GOAL_ROOM];
    let mut actions = [0u8; ACTIONS_ROOM];
    let mut line = [0u8; HEAD_ROOM];
    let mut room = [0u8; MAX_FILE];
    let n = io::read_full(STDIN_FILENO, &mut first);
    let end = answer(
        &first[..n],
        &mut sizes,
        &mut start,
        &mut goal,
        &mut actions,
        &mut line,
        &mut room,
    );
    io::write_all(STDOUT_FILENO, &room[..end]);
}
