// The number and the detail of a refusal, as the rules' table has them.
#![tactic(auto)]

ghost use Rattle.std.specs.Prelude.{◌≡◌};
ghost use Rattle.rules.specs.Answers.{answer_of};

use rules::Refusal;

// The number and the detail of a refusal; the detail is 0 where it has none.
fn answer_of(why: Refusal) -> (usize, usize)
    ensures { (result.0 ≡ (answer_of why).number) × (result.1 ≡ (answer_of why).detail) }
{
    match why {
        Refusal::FileLength => (1, 0),
        Refusal::ContentsRow(row) => (2, row),
        Refusal::BodyLength => (3, 0),
        Refusal::DomainSize(x) => (4, x),
        Refusal::StartValue(x) => (5, x),
        Refusal::GoalPair(i) => (6, i),
        Refusal::ActionAtFault(a) => (7, a),
        Refusal::Horizon => (8, 0),
        Refusal::ClauseNumber => (9, 0),
        Refusal::Room => (10, 0),
        Refusal::Grammar(i) => (11, i),
        Refusal::OutOfPlace(i) => (12, i),
        Refusal::OverN(i) => (13, i),
        Refusal::GivenBefore(i) => (14, i),
        Refusal::Unfinished => (15, 0),
        Refusal::UnmetClause(c) => (17, c),
        Refusal::Unsatisfiable => (18, 0),
        Refusal::Unknown => (19, 0),
        Refusal::EntryOverA(t) => (20, t),
        Refusal::DoesNotApply(t) => (21, t),
        Refusal::GoalUnmet(i) => (22, i),
        Refusal::AgainstFormat(line) => (30, line),
        Refusal::AxiomOrCondition(line) => (31, line),
        Refusal::OtherVersion(line) => (32, line),
    }
}

// The number of a refusal.
pub fn number_of(why: Refusal) -> usize
    ensures { result ≡ (answer_of why).number }
{
    answer_of(why).0
}

// The detail of a refusal, 0 where it has none.
pub fn detail_of(why: Refusal) -> usize
    ensures { result ≡ (answer_of why).detail }
{
    answer_of(why).1
}
