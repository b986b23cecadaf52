// The end of a text: its last line, the verdict on what was read, and the task file in lent room.
ghost use Rattle.std.specs.Prelude.{◌≡◌, ◌*◌, ◌≤◌, length, Ok};
ghost use Rattle.rules.specs.Limits.{pair_bytes};
ghost use Rattle.rules.specs.Answers.{judge, in_turn};
ghost use Rattle.rules.specs.Calls.{room_rule, lent_after};
ghost use Rattle.rules.specs.Format.{shape_of};
ghost use Rattle.rules.specs.Translation.{is_end};
ghost use Rattle.writer.specs.Laid.{file_length};
ghost use Rattle.bodies.specs.Keeping.{Sound};
ghost use Rattle.translator.specs.Intake.{memory, read_from, Lent, taken, Ready, last_line, rules_kept, file_kept, verdict_kept, stops_early, verdict_at_end, EndsWith, ended, end_with, finish_call};

use crate::intake::Intake;
use crate::lines::one_more;
use crate::parts::Bodies;
use crate::position::Position;
use crate::room::has_room;
use bodies::{Excess, Kept};
use reader::limits::PAIR_BYTES;
use rules::{FormatLine, Refusal};

fn is_end(due: FormatLine) -> bool
    ensures { result ≡ is_end (shape_of due) }
{
    matches!(due, FormatLine::EndOfText)
}

// The second verdict where the first accepts.
fn in_turn(first: Result<(), Refusal>, then: Result<(), Refusal>) -> Result<(), Refusal>
    ensures { result ≡ in_turn first then }
{
    match first {
        Ok(()) => then,
        Err(_) => first,
    }
}

// A text that stops early is at fault at the line after its last.
#[tactic(auto, unfolding(crate::specs::Intake::stops_early, rules::specs::Answers::judge))]
fn stops_early(position: Position, lines: usize) -> Result<(), Refusal>
    ensures { result ≡ stops_early position lines }
{
    if is_end(position.line_due()) {
        return Ok(());
    }
    Err(Refusal::AgainstFormat(one_more(lines)))
}

// Refusals 3 to 7 on what is kept.
#[tactic(auto, unfolding(crate::specs::Intake::rules_kept))]
fn rules_kept(kept: Kept, bodies: Bodies<'_>) -> Result<(), Refusal>
    requires { Sound kept × Lent (read_from bodies) }
    ensures { result ≡ rules_kept kept (read_from bodies.entry) }
{
    let file = bodies.kept(kept);
    reader::file::bodies_verdict(file.sizes, file.start, file.goal, file.actions)
}

// Refusal 10, where so many bytes are needed.
#[tactic(auto, unfolding(rules::specs::Answers::judge))]
fn room_verdict(needed: usize, room: usize) -> Result<(), Refusal>
    ensures { result ≡ judge (room_rule needed room) }
{
    if needed <= room {
        return Ok(());
    }
    Err(Refusal::Room)
}

// The length of the file of what is kept.
fn length_kept(kept: Kept) -> usize
    requires { Sound kept }
    ensures { result ≡ file_length kept.sizes kept.starts (pair_bytes * kept.goals) kept.bytes }
{
    writer::file_length(kept.sizes, kept.starts, PAIR_BYTES * kept.goals, kept.bytes)
}

// Refusals 3 to 7, then 10.
fn verdict_kept(kept: Kept, bodies: Bodies<'_>, room: usize) -> Result<(), Refusal>
    requires { Sound kept × Lent (read_from bodies) }
    ensures { result ≡ verdict_kept kept.excess kept (read_from bodies.entry) room }
{
    let excess = kept.excess;
    match excess {
        Excess::Within => in_turn(
            rules_kept(kept, bodies),
            room_verdict(length_kept(kept), room),
        ),
        Excess::Lengths => Err(Refusal::BodyLength),
        Excess::Actions => in_turn(
            rules_kept(kept, bodies),
            Err(Refusal::ActionAtFault(kept.actions)),
        ),
    }
}

// Writes the file of what is kept, and answers its length.
#[tactic(auto, unfolding(crate::specs::Intake::file_kept))]
fn write_kept(kept: Kept, bodies: Bodies<'_>, room: &mut [u8]) -> usize
    requires { Sound kept × Lent (read_from bodies) × (length (file_kept kept (read_from bodies)) ≤ length room.old) }
    ensures { (result ≡ length (file_kept kept (read_from bodies.entry))) × (room.new ≡ lent_after (Ok tt) (file_kept kept (read_from bodies.entry)) room.old) }
{
    let file = bodies.kept(kept);
    writer::write_file(room, file.sizes, file.start, file.goal, file.actions)
}

impl Intake {
    // Refusals 30 to 32, then those.
    #[tactic(auto, unfolding(crate::specs::Intake::verdict_at_end))]
    fn end_verdict(self, bodies: Bodies<'_>, room: usize) -> Result<(), Refusal>
        requires { Sound self.kept × Lent (read_from bodies) }
        ensures { result ≡ verdict_at_end self (read_from bodies.entry) room }
    {
        let early = stops_early(self.position, self.lines);
        let kept = verdict_kept(self.kept, bodies, room);
        let verdict = self.verdict;
        in_turn(verdict, in_turn(early, kept))
    }

    // The answer at the end of a reading, and the file where it is accepted.
    fn end_with(self, bodies: Bodies<'_>, room: &mut [u8]) -> Result<usize, Refusal>
        requires { Sound self.kept × Lent (read_from bodies) }
        ensures { EndsWith self (read_from bodies.entry) room.old result room.new }
    {
        let kept = self.kept;
        let verdict = self.end_verdict(bodies, room.len());
        match verdict {
            Err(why) => Err(why),
            Ok(()) => Ok(write_kept(kept, bodies, room)),
        }
    }

    // The end of a reading that has room: its last line, then the answer.
    #[tactic(auto, unfolding(crate::specs::Intake::end_with, crate::specs::Intake::end_verdict))]
    fn end_reading(self, bodies: Bodies<'_>, line: &[u8], room: &mut [u8]) -> Result<usize, Refusal>
        requires { Ready (taken self (read_from bodies) line.now) }
        ensures { ended result room.new ≡ end_with (last_line (taken self (read_from bodies.entry) line.now)) room.old }
    {
        self.last_line(line).end_with(bodies, room)
    }
}

// The end of a text: its task file in the room, or the refusal, which leaves the room as found.
#[tactic(auto, unfolding(crate::specs::Intake::finish_call))]
pub fn finish(
    state: Intake,
    sizes: &[u8],
    start: &[u8],
    goal: &[u8],
    actions: &[u8],
    line: &[u8],
    room: &mut [u8],
) -> Result<usize, Refusal>
    ensures { ended result room.new ≡ finish_call (taken state (memory sizes.now start.now goal.now actions.now) line.now) room.old }
{
    let bodies = Bodies {
        sizes,
        start,
        goal,
        actions,
    };
    if !has_room(state, bodies, line) {
        return Err(Refusal::Room);
    }
    state.end_reading(bodies, line, room)
}
