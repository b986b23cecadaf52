// The next lines of a run: as many as the writer for their family makes at a time, or one.
ghost use Rattle.std.specs.Prelude.{◌+◌, ◌≤◌, ◌<◌, length};
ghost use Rattle.rules.specs.Families.{C};
ghost use Rattle.formula.specs.declared.place.Place.{Place};
ghost use Rattle.formula.specs.InFamily.{IsAt};
ghost use Rattle.lines.specs.Written.{pair_room};
ghost use Rattle.parts.specs.Runs.{PutPart};
ghost use Rattle.task.specs.Asked.{problem_asked, file_asked};

use crate::excluding::{put_two_actions, put_two_values};
use crate::following::{put_effects, put_preconditions, put_stays};
use crate::single::{LINE_ROOM, PAIR_ROOM, Part, put_one};
use formula::place::Place;
use formula::placing::place_of;
use task::indexed::Asked;

// From clause c on, the place of a value that stays: the other values too where any line surely fits.
fn put_staying(
    asked: &Asked,
    c: usize,
    s: usize,
    x: usize,
    v: usize,
    out: &mut [u8],
    at: usize,
) -> Part
    requires { (c < C (problem_asked asked.now)) × IsAt (problem_asked asked.now) c (Place.Stays s x v) × (at ≤ length out.old) }
    ensures { PutPart (file_asked asked.now) asked.now.horizon c out.old at result.lines out.new result.end }
{
    if out.len() - at < LINE_ROOM {
        return put_one(asked, c, out, at);
    }
    put_stays(asked, s, x, v, out, at)
}

// From the place of clause c on, where a line of two literals surely fits.
fn put_from(asked: &Asked, c: usize, place: Place, out: &mut [u8], at: usize) -> Part
    requires { (c < C (problem_asked asked.now)) × IsAt (problem_asked asked.now) c place × (at + pair_room ≤ length out.old) }
    ensures { PutPart (file_asked asked.now) asked.now.horizon c out.old at result.lines out.new result.end }
{
    match place {
        Place::Start(_) => put_one(asked, c, out, at),
        Place::Goal(_) => put_one(asked, c, out, at),
        Place::AllValues(_, _) => put_one(asked, c, out, at),
        Place::TwoValues(s, x, v, w) => put_two_values(asked, s, x, v, w, out, at),
        Place::Precondition(s, a, i) => put_preconditions(asked, s, a, i, out, at),
        Place::Effect(s, a, i) => put_effects(asked, s, a, i, out, at),
        Place::Stays(s, x, v) => put_staying(asked, c, s, x, v, out, at),
        Place::TwoActions(s, a, b) => put_two_actions(asked, s, a, b, out, at),
    }
}

// Whole lines from clause c on: one or more, or none where the first does not fit.
pub fn put_some(asked: &Asked, c: usize, out: &mut [u8], at: usize) -> Part
    requires { (c < C (problem_asked asked.now)) × (at ≤ length out.old) }
    ensures { PutPart (file_asked asked.now) asked.now.horizon c out.old at result.lines out.new result.end }
{
    if out.len() - at < PAIR_ROOM {
        return put_one(asked, c, out, at);
    }
    let place = place_of(asked, c);
    put_from(asked, c, place, out, at)
}
