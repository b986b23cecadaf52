// One line, if it fits.
ghost use Rattle.std.specs.Prelude.{◌+◌, ◌-◌, ◌≤◌, ◌<◌, length, take};
ghost use Rattle.rules.specs.Families.{C, clause};
ghost use Rattle.rules.specs.Text.{clause_line};
ghost use Rattle.digits.specs.Over.{Wrote};
ghost use Rattle.lines.specs.Written.{line_room};
ghost use Rattle.parts.specs.Runs.{PutPart};
ghost use Rattle.task.specs.Asked.{problem_asked, file_asked};

use formula::placing::place_of;
use lines::clauses::put_clause;
use task::indexed::Asked;

// Room that surely suffices for a line: 514 literals of 7 bytes, and its end.
pub const LINE_ROOM: usize = 3600;

// Room that surely suffices for a line of two literals.
pub const PAIR_ROOM: usize = 16;

// How many lines were written, and the place behind them.
#[derive(Clone, Copy)]
pub struct Part {
    pub lines: usize,
    pub end: usize,
}

// The line of clause c, where it surely fits.
pub fn put_line(asked: &Asked, c: usize, out: &mut [u8], at: usize) -> usize
    requires { (c < C (problem_asked asked.now)) × (at + line_room ≤ length out.old) }
    ensures written { Wrote out.old at (clause_line (clause (problem_asked asked.now) c)) out.new result }
    ensures within { result ≤ at + line_room }
{
    let place = place_of(asked, c);
    put_clause(asked, place, out, at)
}

// The first n bytes of a text, copied to a place.
pub fn copy(text: &[u8], n: usize, out: &mut [u8], at: usize) -> usize
    requires { (n ≤ length text.now) × (at + n ≤ length out.old) }
    ensures { Wrote out.old at (take n text.now) out.new result }
{
    let end = at + n;
    out[at..end].copy_from_slice(&text[..n]);
    end
}

// The line of clause c if it fits, made in lent room of its own and copied.
fn put_in_turn(asked: &Asked, c: usize, line: &mut [u8], out: &mut [u8], at: usize) -> Part
    requires { (c < C (problem_asked asked.now)) × (at ≤ length out.old) × (line_room ≤ length line.old) }
    ensures part { PutPart (file_asked asked.now) asked.now.horizon c out.old at result.lines out.new result.end }
    ensures one { result.lines ≤ 1 }
{
    let n = put_line(asked, c, line, 0);
    if out.len() - at < n {
        return Part { lines: 0, end: at };
    }
    let end = copy(line, n, out, at);
    Part { lines: 1, end }
}

// The line of clause c if it fits.
pub fn put_one(asked: &Asked, c: usize, out: &mut [u8], at: usize) -> Part
    requires { (c < C (problem_asked asked.now)) × (at ≤ length out.old) }
    ensures part { PutPart (file_asked asked.now) asked.now.horizon c out.old at result.lines out.new result.end }
    ensures one { result.lines ≤ 1 }
{
    if LINE_ROOM <= out.len() - at {
        let end = put_line(asked, c, out, at);
        return Part { lines: 1, end };
    }
    let mut line = [0u8; LINE_ROOM];
    put_in_turn(asked, c, &mut line, out, at)
}
