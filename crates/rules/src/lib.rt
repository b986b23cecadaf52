// The types that all floors share. This crate has no functions: its definitions are in specs/, what is proved of them in proofs/.
#![tactic(auto)]

// Why a call refuses, in the order of the rules' table; what a variant holds is the refusal's detail.
#[derive(Clone, Copy)]
pub enum Refusal {
    FileLength,
    ContentsRow(usize),
    BodyLength,
    DomainSize(usize),
    StartValue(usize),
    GoalPair(usize),
    ActionAtFault(usize),
    Horizon,
    ClauseNumber,
    Room,
    Grammar(usize),
    OutOfPlace(usize),
    OverN(usize),
    GivenBefore(usize),
    Unfinished,
    UnmetClause(usize),
    Unsatisfiable,
    Unknown,
    EntryOverA(usize),
    DoesNotApply(usize),
    GoalUnmet(usize),
    AgainstFormat(usize),
    AxiomOrCondition(usize),
    OtherVersion(usize),
}

// How far a solver's output has been read: no status yet, SATISFIABLE with its model open or closed, or one of the two other statuses.
#[derive(Clone, Copy)]
pub enum Phase {
    NoStatus,
    ModelOpen,
    ModelClosed,
    SaidUnsatisfiable,
    SaidUnknown,
}

// The reading state: N, the highest variable that a number may name, and how far the reading is.
#[derive(Clone, Copy)]
pub struct Reading {
    pub highest: usize,
    pub phase: Phase,
}

// The lines of the translator's text by what they say, in the format's own order.
#[derive(Clone, Copy)]
pub enum FormatLine {
    BeginVersion,
    Version,
    EndVersion,
    BeginMetric,
    Metric,
    EndMetric,
    VariableCount,
    BeginVariable,
    VariableName,
    AxiomLayer,
    Range,
    AtomName,
    EndVariable,
    MutexGroupCount,
    BeginMutexGroup,
    MutexFactCount,
    MutexFact,
    EndMutexGroup,
    BeginState,
    StateValue,
    EndState,
    BeginGoal,
    GoalCount,
    GoalFact,
    EndGoal,
    OperatorCount,
    BeginOperator,
    OperatorName,
    PrevailCount,
    PrevailCondition,
    EffectCount,
    Effect,
    Cost,
    EndOperator,
    AxiomCount,
    EndOfText,
}
