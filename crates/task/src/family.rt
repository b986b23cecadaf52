// The families of clauses.

// In the formula's order.
#[derive(Clone, Copy, PartialEq, Eq)]
pub enum Family {
    StartValues,
    GoalPairs,
    AllValues,
    TwoValues,
    Preconditions,
    Effects,
    ValuesStay,
    TwoActions,
}

pub const FAMILIES: [Family; 8] = [
    Family::StartValues,
    Family::GoalPairs,
    Family::AllValues,
    Family::TwoValues,
    Family::Preconditions,
    Family::Effects,
    Family::ValuesStay,
    Family::TwoActions,
];
