// Lines of pairs that exclude each other, as many as are left in a step and as there is room for.
ghost use Rattle.std.specs.Prelude.{◌≡◌, suc, ◌+◌, ◌≤◌, ◌<◌, min, length};
ghost use Rattle.rules.specs.Limits.{max_actions, max_n};
ghost use Rattle.formula.specs.declared.place.Place.{Place};
ghost use Rattle.formula.specs.InFamily.{place_number};
ghost use Rattle.exclusions.specs.Exclusions.{pair_room};
ghost use Rattle.lines.specs.AtPlace.{PairRoomFor};
ghost use Rattle.parts.specs.Runs.{PutPart, PutPairs};
ghost use Rattle.task.specs.Asked.{task_in, file_asked};

use crate::single::{PAIR_ROOM, Part};
use exclusions::put_exclusions;
use formula::numbers::{action_at, value_at};
use pairs::{number_of_pair, pairs_below};
use task::asked::size;
use task::index::actions;
use task::indexed::Asked;
use task::numbering::number_of;

// The lines of the pairs below count from (first, second) on, their numbers counted from base on.
fn put_pairs(
    out: &mut [u8],
    at: usize,
    base: usize,
    count: usize,
    first: usize,
    second: usize,
) -> Part
    requires { (first < second) × (second < count) × (count ≤ max_actions) × (base + count ≤ suc max_n) × (at + pair_room ≤ length out.old) }
    ensures { PutPairs base count first second out.old at result.lines out.new result.end }
{
    let left = pairs_below(count) - number_of_pair(count, first, second);
    let lines = left.min((out.len() - at) / PAIR_ROOM);
    let end = put_exclusions(out, at, base, count, first, second, lines);
    Part { lines, end }
}

// Two actions of a step, from a and b on.
pub fn put_two_actions(
    asked: &Asked,
    s: usize,
    a: usize,
    b: usize,
    out: &mut [u8],
    at: usize,
) -> Part
    requires { PairRoomFor (file_asked asked.now) asked.now.horizon (Place.TwoActions s a b) at (length out.old) }
    ensures { PutPart (file_asked asked.now) asked.now.horizon (place_number (task_in asked.now.task) asked.now.horizon (Place.TwoActions s a b)) out.old at result.lines out.new result.end }
{
    let base = number_of(action_at(asked, s, 0));
    put_pairs(out, at, base, actions(&asked.task), a, b)
}

// Two values of a variable at a step, from v and w on.
pub fn put_two_values(
    asked: &Asked,
    s: usize,
    x: usize,
    v: usize,
    w: usize,
    out: &mut [u8],
    at: usize,
) -> Part
    requires { PairRoomFor (file_asked asked.now) asked.now.horizon (Place.TwoValues s x v w) at (length out.old) }
    ensures { PutPart (file_asked asked.now) asked.now.horizon (place_number (task_in asked.now.task) asked.now.horizon (Place.TwoValues s x v w)) out.old at result.lines out.new result.end }
{
    let base = number_of(value_at(asked, s, x, 0));
    put_pairs(out, at, base, size(asked.task.file, x), v, w)
}
