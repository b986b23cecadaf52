// A line that has ended: judged as the line that is due, and what it adds kept.
ghost use Rattle.std.specs.Prelude.{◌≡◌, List, ℕ, ◌≤◌, length, take};
ghost use Rattle.bodies.specs.Keeping.{Sound};
ghost use Rattle.textlines.specs.Says.{says_as};
ghost use Rattle.translator.specs.Intake.{Memory, lent_in, SameParts, Lent, kept_in, keep_line, one_more, head_room, taken, Ready, read_on, stopped_for, after_line, end_line, last_said, last_line};

use crate::intake::Intake;
use crate::keeping::keep_line;
use crate::parts::Parts;
use bodies::Kept;
use rules::{FormatLine, Refusal};
use textlines::Numbers;

// A count of lines stays at the largest number that there is.
pub(crate) fn one_more(lines: usize) -> usize
    ensures { result ≡ one_more lines }
{
    lines.saturating_add(1)
}

impl Intake {
    // A line that was in order has been read, and so much is kept: the next is due.
    fn read(self, due: FormatLine, said: Numbers, kept: Kept) -> Intake
        ensures { result ≡ read_on due said self kept }
    {
        Intake {
            position: self.position.moved_on(due, said.first),
            lines: one_more(self.lines),
            verdict: Ok(()),
            kept,
            held: 0,
        }
    }

    // A line that was in order is read, and what it adds is kept.
    fn read_on(self, due: FormatLine, said: Numbers, parts: &mut Parts<'_>) -> Intake
        requires { Sound self.kept × Lent (lent_in parts.old) }
        ensures stands { result ≡ read_on due said self result.kept }
        ensures kept { kept_in result.kept (lent_in parts.new) ≡ keep_line due said (kept_in self.kept (lent_in parts.old)) }
        ensures sound { Sound result.kept }
        ensures same { SameParts parts.old parts.new }
    {
        // Stated here: by `self.read(due, said, kept)` a text of operators takes a seventh more instructions.
        let position = self.position.moved_on(due, said.first);
        let lines = one_more(self.lines);
        let kept = keep_line(due, said, self.kept, parts);
        Intake {
            position,
            lines,
            verdict: Ok(()),
            kept,
            held: 0,
        }
    }

    // A line that was against the rules ends the reading.
    fn stopped(self, why: Refusal) -> Intake
        ensures { result ≡ stopped_for why self }
    {
        Intake {
            verdict: Err(why),
            held: 0,
            ..self
        }
    }

    // What the line said decides: it is read, or it ends the reading.
    fn after_line(
        self,
        due: FormatLine,
        said: Result<Numbers, Refusal>,
        parts: &mut Parts<'_>,
    ) -> Intake
        requires { Sound self.kept × Lent (lent_in parts.old) }
        ensures after { (line : List ℕ) → taken result (lent_in parts.new) line ≡ after_line said due self (lent_in parts.old) line }
        ensures fits { Sound result.kept × (result.held ≤ head_room) }
        ensures same { SameParts parts.old parts.new }
    {
        match said {
            Err(why) => self.stopped(why),
            Ok(numbers) => self.read_on(due, numbers, parts),
        }
    }

    // What the line that is held says as a line that is due.
    fn held_says(&self, due: FormatLine, line: &[u8]) -> Result<Numbers, Refusal>
        requires { (self.now.held ≤ head_room) × (head_room ≤ length line.now) }
        ensures { result ≡ says_as due (one_more self.now.lines) (take self.now.held line.now) }
    {
        textlines::says(due, one_more(self.lines), &line[..self.held])
    }

    // The line that is held ends: it is judged as the line that is due.
    #[tactic(auto, unfolding(crate::specs::Intake::end_line))]
    pub(crate) fn end_line(self, parts: &mut Parts<'_>, line: &[u8]) -> Intake
        requires { Ready (taken self (lent_in parts.old) line.now) }
        ensures ended { taken result (lent_in parts.new) line.now ≡ end_line (taken self (lent_in parts.old) line.now) }
        ensures fits { Sound result.kept × (result.held ≤ head_room) }
        ensures same { SameParts parts.old parts.new }
    {
        let verdict = self.verdict;
        let Ok(()) = verdict else {
            return self;
        };
        let due = self.position.line_due();
        let said = self.held_says(due, line);
        self.after_line(due, said, parts)
    }

    // What a last line said decides. One that was in order ends the text, or the text stops early, and what it adds matters to neither.
    fn last_said(self, due: FormatLine, said: Result<Numbers, Refusal>) -> Intake
        ensures { result ≡ last_said said due self }
    {
        match said {
            Err(why) => self.stopped(why),
            Ok(numbers) => self.read(due, numbers, self.kept),
        }
    }

    // What is held of a last line without LF is a line; it is judged and not kept.
    #[tactic(auto, unfolding(crate::specs::Intake::last_line))]
    pub(crate) fn last_line(self, line: &[u8]) -> Intake
        requires { (self.held ≤ head_room) × (head_room ≤ length line.now) }
        ensures last { (m : Memory) → taken result m line.now ≡ last_line (taken self m line.now) }
        ensures kept { result.kept ≡ self.kept }
    {
        if self.held == 0 {
            return self;
        }
        let verdict = self.verdict;
        let Ok(()) = verdict else {
            return self;
        };
        let due = self.position.line_due();
        let said = self.held_says(due, line);
        self.last_said(due, said)
    }
}
