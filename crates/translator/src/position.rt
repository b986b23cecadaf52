// Where a reading stands in the format.
ghost use Rattle.std.specs.Prelude.{◌≡◌};
ghost use Rattle.translator.specs.Position.{first_position, unless_over, line_due, to, again, around, repeated, rounds, of_variables, moved_on};

use rules::FormatLine;

// The line that is due while its repetitions last: `inner` counts those of single lines, `outer` the variables, groups or operators that are left, the
// one that is being read with them. The number of variables is needed again for the start values.
#[derive(Clone, Copy)]
pub struct Position {
    pub line: FormatLine,
    pub inner: usize,
    pub outer: usize,
    pub variables: usize,
}

// Where no repetition is left, the line behind them.
fn unless_over(left: usize, repeat: FormatLine, behind: FormatLine) -> FormatLine
    ensures { result ≡ unless_over left repeat behind }
{
    if left == 0 {
        return behind;
    }
    repeat
}

impl Position {
    // Before the first line.
    pub(crate) fn first() -> Position
        ensures { result ≡ first_position }
    {
        Position {
            line: FormatLine::BeginVersion,
            inner: 0,
            outer: 0,
            variables: 0,
        }
    }

    // The line that is due here.
    #[tactic(auto, unfolding(crate::specs::Position::line_due))]
    pub(crate) fn line_due(self) -> FormatLine
        ensures { result ≡ line_due self }
    {
        let line = self.line;
        match line {
            FormatLine::BeginVariable => unless_over(self.outer, line, FormatLine::MutexGroupCount),
            FormatLine::AtomName => unless_over(self.inner, line, FormatLine::EndVariable),
            FormatLine::BeginMutexGroup => unless_over(self.outer, line, FormatLine::BeginState),
            FormatLine::MutexFact => unless_over(self.inner, line, FormatLine::EndMutexGroup),
            FormatLine::StateValue => unless_over(self.inner, line, FormatLine::EndState),
            FormatLine::GoalFact => unless_over(self.inner, line, FormatLine::EndGoal),
            FormatLine::BeginOperator => unless_over(self.outer, line, FormatLine::AxiomCount),
            FormatLine::PrevailCondition => unless_over(self.inner, line, FormatLine::EffectCount),
            FormatLine::Effect => unless_over(self.inner, line, FormatLine::Cost),
            _ => line,
        }
    }

    // At another line, with the same counts.
    fn to(self, line: FormatLine) -> Position
        ensures { result ≡ to line self }
    {
        Position { line, ..self }
    }

    // One of the repeated lines has been read.
    fn again(self, line: FormatLine) -> Position
        ensures { result ≡ again line self }
    {
        Position {
            line,
            inner: self.inner.saturating_sub(1),
            ..self
        }
    }

    // One variable, group or operator has been read.
    fn around(self, line: FormatLine) -> Position
        ensures { result ≡ around line self }
    {
        Position {
            line,
            outer: self.outer.saturating_sub(1),
            ..self
        }
    }

    // A line is due m times.
    pub(crate) fn repeated(self, line: FormatLine, m: usize) -> Position
        ensures { result ≡ repeated line m self }
    {
        Position {
            line,
            inner: m,
            ..self
        }
    }

    // A group or an operator is due m times.
    fn rounds(self, line: FormatLine, m: usize) -> Position
        ensures { result ≡ rounds line m self }
    {
        Position {
            line,
            outer: m,
            ..self
        }
    }

    // So many variables are due, and later as many start values.
    fn of_variables(self, m: usize) -> Position
        ensures { result ≡ of_variables m self }
    {
        Position {
            line: FormatLine::BeginVariable,
            outer: m,
            variables: m,
            ..self
        }
    }

    // The position behind a line that was due, which said the number m.
    #[tactic(auto, using(crate::proofs::PositionLaws::moved_in), unfolding(crate::specs::Position::moved_on))]
    pub(crate) fn moved_on(self, due: FormatLine, m: usize) -> Position
        ensures { result ≡ moved_on due m self }
    {
        match due {
            FormatLine::BeginVersion => self.to(FormatLine::Version),
            FormatLine::Version => self.to(FormatLine::EndVersion),
            FormatLine::EndVersion => self.to(FormatLine::BeginMetric),
            FormatLine::BeginMetric => self.to(FormatLine::Metric),
            FormatLine::Metric => self.to(FormatLine::EndMetric),
            FormatLine::EndMetric => self.to(FormatLine::VariableCount),
            FormatLine::VariableCount => self.of_variables(m),
            FormatLine::BeginVariable => self.to(FormatLine::VariableName),
            FormatLine::VariableName => self.to(FormatLine::AxiomLayer),
            FormatLine::AxiomLayer => self.to(FormatLine::Range),
            FormatLine::Range => self.repeated(FormatLine::AtomName, m),
            FormatLine::AtomName => self.again(FormatLine::AtomName),
            FormatLine::EndVariable => self.around(FormatLine::BeginVariable),
            FormatLine::MutexGroupCount => self.rounds(FormatLine::BeginMutexGroup, m),
            FormatLine::BeginMutexGroup => self.to(FormatLine::MutexFactCount),
            FormatLine::MutexFactCount => self.repeated(FormatLine::MutexFact, m),
            FormatLine::MutexFact => self.again(FormatLine::MutexFact),
            FormatLine::EndMutexGroup => self.around(FormatLine::BeginMutexGroup),
            FormatLine::BeginState => self.repeated(FormatLine::StateValue, self.variables),
            FormatLine::StateValue => self.again(FormatLine::StateValue),
            FormatLine::EndState => self.to(FormatLine::BeginGoal),
            FormatLine::BeginGoal => self.to(FormatLine::GoalCount),
            FormatLine::GoalCount => self.repeated(FormatLine::GoalFact, m),
            FormatLine::GoalFact => self.again(FormatLine::GoalFact),
            FormatLine::EndGoal => self.to(FormatLine::OperatorCount),
            FormatLine::OperatorCount => self.rounds(FormatLine::BeginOperator, m),
            FormatLine::BeginOperator => self.to(FormatLine::OperatorName),
            FormatLine::OperatorName => self.to(FormatLine::PrevailCount),
            FormatLine::PrevailCount => self.repeated(FormatLine::PrevailCondition, m),
            FormatLine::PrevailCondition => self.again(FormatLine::PrevailCondition),
            FormatLine::EffectCount => self.repeated(FormatLine::Effect, m),
            FormatLine::Effect => self.again(FormatLine::Effect),
            FormatLine::Cost => self.to(FormatLine::EndOperator),
            FormatLine::EndOperator => self.around(FormatLine::BeginOperator),
            FormatLine::AxiomCount => self.to(FormatLine::EndOfText),
            FormatLine::EndOfText => self,
        }
    }
}
