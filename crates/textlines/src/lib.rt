// One line of the translator's text: whether it is what is due, and the numbers that it says.
#![tactic(auto)]

mod plain;
mod shapes;
mod words;

ghost use Rattle.std.specs.Prelude.{◌≡◌};
ghost use Rattle.textlines.specs.Says.{is_fact, says_as};

use rules::{FormatLine, Refusal};

// The numbers of a line: a count, a size or a value; a fact's variable and value; an effect's variable, new value and old value. An old value that
// may be any, -1 in the text, is none.
#[derive(Clone, Copy)]
pub struct Numbers {
    pub first: usize,
    pub second: usize,
    pub old: Option<usize>,
}

// Whether a line is a fact, which is all that is asked of a mutex group's: it is cut at its first space alone, since no number has one.
pub fn is_fact(line: &[u8]) -> bool
    ensures { result ≡ is_fact line.now }
{
    let end = lent_bytes::words::word_end(line, 0);
    if end == line.len() {
        return false;
    }
    if !plain::is_plain(&line[0..end]) {
        return false;
    }
    plain::is_plain(&line[end + 1..])
}

// What a line says where a line of some kind is due, or why it is refused; `at` is its number in the text.
#[tactic(auto, using(crate::proofs::ShapeLaws::says_arms), unfolding(crate::specs::Says::says_as, rules::specs::Text::ascii))]
pub fn says(due: FormatLine, at: usize, line: &[u8]) -> Result<Numbers, Refusal>
    ensures { result ≡ says_as due at line.now }
{
    match due {
        FormatLine::BeginVersion => shapes::keyword_line(at, line, b"begin_version"),
        FormatLine::Version => shapes::version_line(at, line),
        FormatLine::EndVersion => shapes::keyword_line(at, line, b"end_version"),
        FormatLine::BeginMetric => shapes::keyword_line(at, line, b"begin_metric"),
        FormatLine::Metric => shapes::metric_line(at, line),
        FormatLine::EndMetric => shapes::keyword_line(at, line, b"end_metric"),
        FormatLine::VariableCount => shapes::number_line(at, line),
        FormatLine::BeginVariable => shapes::keyword_line(at, line, b"begin_variable"),
        FormatLine::VariableName => shapes::nothing_said(),
        FormatLine::AxiomLayer => shapes::layer_line(at, line),
        FormatLine::Range => shapes::number_line(at, line),
        FormatLine::AtomName => shapes::nothing_said(),
        FormatLine::EndVariable => shapes::keyword_line(at, line, b"end_variable"),
        FormatLine::MutexGroupCount => shapes::number_line(at, line),
        FormatLine::BeginMutexGroup => shapes::keyword_line(at, line, b"begin_mutex_group"),
        FormatLine::MutexFactCount => shapes::number_line(at, line),
        FormatLine::MutexFact => shapes::fact_line(at, line),
        FormatLine::EndMutexGroup => shapes::keyword_line(at, line, b"end_mutex_group"),
        FormatLine::BeginState => shapes::keyword_line(at, line, b"begin_state"),
        FormatLine::StateValue => shapes::number_line(at, line),
        FormatLine::EndState => shapes::keyword_line(at, line, b"end_state"),
        FormatLine::BeginGoal => shapes::keyword_line(at, line, b"begin_goal"),
        FormatLine::GoalCount => shapes::number_line(at, line),
        FormatLine::GoalFact => shapes::fact_line(at, line),
        FormatLine::EndGoal => shapes::keyword_line(at, line, b"end_goal"),
        FormatLine::OperatorCount => shapes::number_line(at, line),
        FormatLine::BeginOperator => shapes::keyword_line(at, line, b"begin_operator"),
        FormatLine::OperatorName => shapes::nothing_said(),
        FormatLine::PrevailCount => shapes::number_line(at, line),
        FormatLine::PrevailCondition => shapes::fact_line(at, line),
        FormatLine::EffectCount => shapes::number_line(at, line),
        FormatLine::Effect => shapes::effect_line(at, line),
        FormatLine::Cost => shapes::number_line(at, line),
        FormatLine::EndOperator => shapes::keyword_line(at, line, b"end_operator"),
        FormatLine::AxiomCount => shapes::axiom_count_line(at, line),
        FormatLine::EndOfText => shapes::against_format(at),
    }
}
