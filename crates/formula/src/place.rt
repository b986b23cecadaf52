// Where a clause stands: its family, and in it the step, from 0, and what the family counts.
#[derive(Clone, Copy)]
pub enum Place {
    // The start value of a variable.
    Start(usize),
    // A goal pair.
    Goal(usize),
    // All values of a variable at a step.
    AllValues(usize, usize),
    // Two values of a variable at a step: step, variable, the lower value, the higher.
    TwoValues(usize, usize, usize, usize),
    // A precondition at a step: step, action, pair.
    Precondition(usize, usize, usize),
    // An effect at a step: step, action, pair.
    Effect(usize, usize, usize),
    // A value that stays at a step: step, variable, value.
    Stays(usize, usize, usize),
    // Two actions at a step: step, the lower action, the higher.
    TwoActions(usize, usize, usize),
}
