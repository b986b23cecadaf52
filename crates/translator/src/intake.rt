// A whole text in pieces: lines are read as they end; of the line that has begun, its first bytes are held, which decide it.
ghost use Rattle.std.specs.Prelude.{◌≡◌, ◌≤◌, ◌<◌, length, drop, Err};
ghost use Rattle.rules.specs.declared.Refusal.TheVariants.{Room};
ghost use Rattle.bodies.specs.Keeping.{Sound};
ghost use Rattle.translator.specs.Intake.{memory, lent_in, SameParts, head_room, taken, Ready, with_held, take_all, HeldLine, refused_for, take_call, begun};

use crate::holding::hold;
use crate::parts::Parts;
use crate::position::Position;
use crate::room::has_room;
use bodies::Kept;
use rules::{FormatLine, Refusal};

// How far a text is read: where in the format, how many lines, the first fault if there was one, what is kept, and how many bytes are held of the line
// that has begun.
#[derive(Clone, Copy)]
pub struct Intake {
    pub position: Position,
    pub lines: usize,
    pub verdict: Result<(), Refusal>,
    pub kept: Kept,
    pub held: usize,
}

// A reading, and the next byte that it has not taken.
#[derive(Clone, Copy)]
pub(crate) struct Further {
    pub reading: Intake,
    pub at: usize,
}

// No byte has been taken.
pub fn begin() -> Intake
    ensures { result ≡ begun }
{
    Intake {
        position: Position::first(),
        lines: 0,
        verdict: Ok(()),
        kept: bodies::nothing_kept(),
        held: 0,
    }
}

fn with_held(state: Intake, held: usize) -> Intake
    ensures { result ≡ with_held held state }
{
    // Stored to the one field: `Intake { held, ..state }` takes a twentieth longer on a text of mutex groups.
    let mut next = state;
    next.held = held;
    next
}

impl Intake {
    // The line that has begun goes on, up to an LF or the end of the bytes; behind a fault they are passed over.
    fn hold_line(self, line: &mut [u8], bytes: &[u8], at: usize) -> Further
        requires { (self.held ≤ head_room) × (head_room ≤ length line.old) × (at ≤ length bytes.now) }
        ensures { HeldLine self line.old bytes.now at result.reading result.at line.new }
    {
        let verdict = self.verdict;
        let Ok(()) = verdict else {
            return Further {
                reading: self,
                at: bytes.len(),
            };
        };
        let stop = hold(line, self.held, bytes, at);
        Further {
            reading: with_held(self, stop.held),
            at: stop.at,
        }
    }

    // Where the facts of a mutex group are due, those that come next are read; the line behind them goes on.
    fn reach_line(self, line: &mut [u8], bytes: &[u8], at: usize) -> Further
        requires { (self.held ≤ head_room) × (head_room ≤ length line.old) × (at ≤ length bytes.now) }
        ensures { HeldLine self line.old bytes.now at result.reading result.at line.new }
    {
        let verdict = self.verdict;
        let Ok(()) = verdict else {
            return self.hold_line(line, bytes, at);
        };
        if !matches!(self.position.line, FormatLine::MutexFact) {
            return self.hold_line(line, bytes, at);
        }
        let behind = self.group_facts(line, bytes, at);
        behind.reading.hold_line(line, bytes, behind.at)
    }

    // The bytes from a place on, up to the end of a line and with its LF.
    fn take_line(self, parts: &mut Parts<'_>, line: &mut [u8], bytes: &[u8], at: usize) -> Further
        requires { Ready (taken self (lent_in parts.old) line.old) × (at < length bytes.now) }
        ensures rest { take_all (taken result.reading (lent_in parts.new) line.new) (drop result.at bytes.now) ≡ take_all (taken self (lent_in parts.old) line.old) (drop at bytes.now) }
        ensures fits { Sound result.reading.kept × (result.reading.held ≤ head_room) }
        ensures same { SameParts parts.old parts.new }
        ensures further { (at < result.at) × (result.at ≤ length bytes.now) }
    {
        let whole = self.reach_line(line, bytes, at);
        let end = whole.at;
        if bytes.len() <= end {
            return whole;
        }
        let next = end + 1;
        Further {
            reading: whole.reading.end_line(parts, line),
            at: next,
        }
    }

    // What is lent is no room for the reading.
    fn refused_for_room(self) -> Intake
        ensures { result ≡ refused_for (Err Room) self }
    {
        Intake {
            verdict: Err(Refusal::Room),
            ..self
        }
    }
}

// The next bytes of a text, as many as there are.
pub fn take_bytes(
    state: Intake,
    sizes: &mut [u8],
    start: &mut [u8],
    goal: &mut [u8],
    actions: &mut [u8],
    line: &mut [u8],
    bytes: &[u8],
) -> Intake
    ensures { taken result (memory sizes.new start.new goal.new actions.new) line.new ≡ take_call (taken state (memory sizes.old start.old goal.old actions.old) line.old) bytes.now }
{
    let mut parts = Parts {
        sizes,
        start,
        goal,
        actions,
    };
    if !has_room(state, parts.read(), line) {
        return state.refused_for_room();
    }
    let mut reading = state;
    let mut at = 0;
    // The position jumps by as many bytes as were taken.
    while at < bytes.len() {
        let further = reading.take_line(&mut parts, line, bytes, at);
        reading = further.reading;
        at = further.at;
    }
    reading
}
