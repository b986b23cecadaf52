// The facts of mutex groups, which are most of a large text, are read in a loop of plain numbers.
ghost use Rattle.std.specs.Prelude.{◌≡◌, ◌≤◌, ◌<◌, length, Ok};
ghost use Rattle.rules.specs.declared.FormatLine.TheVariants.{MutexFact};
ghost use Rattle.translator.specs.Intake.{head_room};
ghost use Rattle.translator.specs.Facts.{among_facts, one_read, fact_ends, AllRead, FactsTaken};

use crate::holding::hold;
use crate::intake::{Further, Intake};
use crate::lines::one_more;
use rules::{FormatLine, Refusal};

// How far the facts of a group are read: the next byte that is not taken, how many bytes of a line are held, how many facts are left, how many lines
// were read.
#[derive(Clone, Copy)]
pub(crate) struct Facts {
    pub at: usize,
    pub held: usize,
    pub left: usize,
    pub lines: usize,
}

// Whether what is held is a fact and ends at a place.
#[tactic(auto, unfolding(crate::specs::Facts::fact_ends))]
fn fact_ends(line: &[u8], held: usize, bytes: &[u8], at: usize) -> bool
    requires { (held ≤ head_room) × (head_room ≤ length line.now) }
    ensures { result ≡ fact_ends bytes.now at held line.now }
{
    at < bytes.len() && textlines::is_fact(&line[..held])
}

impl Facts {
    // A fact has ended before a place.
    #[tactic(auto, unfolding(crate::specs::Facts::one_read))]
    fn one_read(self, next: usize) -> Facts
        requires { 0 < self.left }
        ensures { result ≡ one_read next self }
    {
        Facts {
            at: next,
            held: 0,
            left: self.left - 1,
            lines: one_more(self.lines),
        }
    }
}

// As many facts as come next; a line that has not ended or is none is held and not judged.
fn read_facts(line: &mut [u8], bytes: &[u8], first: Facts) -> Facts
    requires { (first.held ≤ head_room) × (head_room ≤ length line.old) × (first.at ≤ length bytes.now) }
    ensures { AllRead bytes.now first line.old result line.new }
{
    let mut facts = first;
    for _ in 0..first.left {
        let stop = hold(line, facts.held, bytes, facts.at);
        facts.at = stop.at;
        facts.held = stop.held;
        if !fact_ends(line, facts.held, bytes, facts.at) {
            return facts;
        }
        facts = facts.one_read(facts.at + 1);
    }
    facts
}

impl Intake {
    // The reading is so far among the facts.
    fn among_facts(self, facts: Facts) -> Intake
        ensures { result ≡ among_facts facts self }
    {
        Intake {
            position: self.position.repeated(FormatLine::MutexFact, facts.left),
            lines: facts.lines,
            verdict: Ok(()),
            held: facts.held,
            ..self
        }
    }

    // The facts of a mutex group that come next are read.
    pub(crate) fn group_facts(self, line: &mut [u8], bytes: &[u8], at: usize) -> Further
        requires in_facts { (self.verdict ≡ Ok tt) × (self.position.line ≡ MutexFact) }
        requires rooms { (self.held ≤ head_room) × (head_room ≤ length line.old) × (at ≤ length bytes.now) }
        ensures { FactsTaken self line.old bytes.now at result.reading result.at line.new }
    {
        let first = Facts {
            at,
            held: self.held,
            left: self.position.inner,
            lines: self.lines,
        };
        let facts = read_facts(line, bytes, first);
        Further {
            reading: self.among_facts(facts),
            at: facts.at,
        }
    }
}
