// The clause at a place: how many literals it has, and its literals written over the front of lent memory.
ghost use Rattle.std.specs.Prelude.{◌≡◌, ◌≤◌, length};
ghost use Rattle.rules.specs.Problem.{problem};
ghost use Rattle.formula.specs.InFamily.{InRange};
ghost use Rattle.formula.specs.Front.{literal_count, Ready, clause_written};
ghost use Rattle.task.specs.Asked.{task_in, file_in, file_asked};

use crate::numbers::{action_at, pair_at, value_at};
use crate::place::Place;
use crate::supporters::{put_supporters, supporter_count};
use crate::written::{put_excludes, put_implies, put_plus};
use task::asked::{effect, goal_pair, precondition, size, start_value};
use task::indexed::{Asked, IndexedFile};
use task::numbering::nth_action;

// How many literals the clause at a place has.
pub fn literal_count(task: &IndexedFile, horizon: usize, place: Place) -> usize
    requires { InRange (problem (task_in task.now) horizon) place }
    ensures { result ≡ literal_count (file_in task.now) horizon place }
{
    match place {
        Place::Start(_) => 1,
        Place::Goal(_) => 1,
        Place::AllValues(_, x) => size(task.file, x),
        Place::Stays(s, x, v) => 2 + supporter_count(task, horizon, s, x, v),
        Place::TwoValues(_, _, _, _) => 2,
        Place::Precondition(_, _, _) => 2,
        Place::Effect(_, _, _) => 2,
        Place::TwoActions(_, _, _) => 2,
    }
}

fn put_start(asked: &Asked, x: usize, out: &mut [i32])
    requires { Ready (file_asked asked.now) asked.now.horizon (Place.Start x) (length out.old) }
    ensures { out.new ≡ clause_written (file_asked asked.now) asked.now.horizon (Place.Start x) out.old }
{
    let v = start_value(asked.task.file, x);
    put_plus(out, 0, value_at(asked, 0, x, v));
}

fn put_goal(asked: &Asked, i: usize, out: &mut [i32])
    requires { Ready (file_asked asked.now) asked.now.horizon (Place.Goal i) (length out.old) }
    ensures { out.new ≡ clause_written (file_asked asked.now) asked.now.horizon (Place.Goal i) out.old }
{
    let pair = goal_pair(asked.task.file, i);
    put_plus(out, 0, pair_at(asked, asked.horizon, pair));
}

fn put_all_values(asked: &Asked, s: usize, x: usize, out: &mut [i32])
    requires { Ready (file_asked asked.now) asked.now.horizon (Place.AllValues s x) (length out.old) }
    ensures { out.new ≡ clause_written (file_asked asked.now) asked.now.horizon (Place.AllValues s x) out.old }
{
    let count = size(asked.task.file, x);
    for v in 0..count {
        put_plus(out, v, value_at(asked, s, x, v));
    }
}

fn put_two_values(asked: &Asked, s: usize, x: usize, v: usize, w: usize, out: &mut [i32])
    requires { Ready (file_asked asked.now) asked.now.horizon (Place.TwoValues s x v w) (length out.old) }
    ensures { out.new ≡ clause_written (file_asked asked.now) asked.now.horizon (Place.TwoValues s x v w) out.old }
{
    let first = value_at(asked, s, x, v);
    let second = value_at(asked, s, x, w);
    put_excludes(out, first, second);
}

fn put_precondition(asked: &Asked, s: usize, a: usize, i: usize, out: &mut [i32])
    requires { Ready (file_asked asked.now) asked.now.horizon (Place.Precondition s a i) (length out.old) }
    ensures { out.new ≡ clause_written (file_asked asked.now) asked.now.horizon (Place.Precondition s a i) out.old }
{
    let pair = precondition(&asked.task, nth_action(a), i);
    let first = action_at(asked, s, a);
    let second = pair_at(asked, s, pair);
    put_implies(out, first, second);
}

fn put_effect(asked: &Asked, s: usize, a: usize, i: usize, out: &mut [i32])
    requires { Ready (file_asked asked.now) asked.now.horizon (Place.Effect s a i) (length out.old) }
    ensures { out.new ≡ clause_written (file_asked asked.now) asked.now.horizon (Place.Effect s a i) out.old }
{
    let pair = effect(&asked.task, nth_action(a), i);
    let first = action_at(asked, s, a);
    let second = pair_at(asked, s + 1, pair);
    put_implies(out, first, second);
}

fn put_stays(asked: &Asked, s: usize, x: usize, v: usize, out: &mut [i32])
    requires { Ready (file_asked asked.now) asked.now.horizon (Place.Stays s x v) (length out.old) }
    ensures { out.new ≡ clause_written (file_asked asked.now) asked.now.horizon (Place.Stays s x v) out.old }
{
    let first = value_at(asked, s + 1, x, v);
    let second = value_at(asked, s, x, v);
    put_implies(out, first, second);
    put_supporters(asked, s, x, v, out, 2);
}

fn put_two_actions(asked: &Asked, s: usize, a: usize, b: usize, out: &mut [i32])
    requires { Ready (file_asked asked.now) asked.now.horizon (Place.TwoActions s a b) (length out.old) }
    ensures { out.new ≡ clause_written (file_asked asked.now) asked.now.horizon (Place.TwoActions s a b) out.old }
{
    let first = action_at(asked, s, a);
    let second = action_at(asked, s, b);
    put_excludes(out, first, second);
}

// The literals of the clause at a place.
pub fn put_clause(asked: &Asked, place: Place, out: &mut [i32])
    requires { Ready (file_asked asked.now) asked.now.horizon place (length out.old) }
    ensures { out.new ≡ clause_written (file_asked asked.now) asked.now.horizon place out.old }
{
    match place {
        Place::Start(x) => put_start(asked, x, out),
        Place::Goal(i) => put_goal(asked, i, out),
        Place::AllValues(s, x) => put_all_values(asked, s, x, out),
        Place::TwoValues(s, x, v, w) => put_two_values(asked, s, x, v, w, out),
        Place::Precondition(s, a, i) => put_precondition(asked, s, a, i, out),
        Place::Effect(s, a, i) => put_effect(asked, s, a, i, out),
        Place::Stays(s, x, v) => put_stays(asked, s, x, v, out),
        Place::TwoActions(s, a, b) => put_two_actions(asked, s, a, b, out),
    }
}
