// The translator's text, read in pieces of any length in constant memory, and its task file.
#![tactic(auto)]

pub mod ending;
mod facts;
mod holding;
pub mod intake;
mod keeping;
mod lines;
mod parts;
pub mod position;
pub mod room;

ghost use Rattle.std.specs.Prelude.{◌≡◌, length};
ghost use Rattle.rules.specs.File.{file_of};
ghost use Rattle.rules.specs.Translation.{text_task, translation_verdict, translation_after};
ghost use Rattle.translator.specs.Intake.{translation};

use crate::room::{ACTIONS_ROOM, GOAL_ROOM, HEAD_ROOM};
use reader::limits::MAX_VARIABLES;
use rules::Refusal;

// The task file of a whole text in the room, or the refusal, which leaves the room as found.
pub fn translate(text: &[u8], room: &mut [u8]) -> Result<usize, Refusal>
    ensures answer { result ≡ translation (translation_verdict text.now (length room.old)) (length (file_of (text_task text.now))) }
    ensures left { room.new ≡ translation_after text.now room.old }
{
    let mut sizes = [0u8; MAX_VARIABLES];
    let mut start = [0u8; MAX_VARIABLES];
    let mut goal = [0u8; GOAL_ROOM];
    let mut actions = [0u8; ACTIONS_ROOM];
    let mut line = [0u8; HEAD_ROOM];
    let read = intake::take_bytes(
        intake::begin(),
        &mut sizes,
        &mut start,
        &mut goal,
        &mut actions,
        &mut line,
        text,
    );
    ending::finish(read, &sizes, &start, &goal, &actions, &line, room)
}
