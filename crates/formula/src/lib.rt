// The formula of a file at a horizon. `calls` has the functions for any bytes: N and C, and clause number c as literals (refusals 1 to 10).
// All others are for an accepted file with its index: the place of clause c (`placing`), what stands there (`clauses`), N and C (`families`).
#![tactic(auto)]

pub mod calls;
pub mod clauses;
pub mod families;
pub mod numbers;
pub mod place;
pub mod placing;
pub mod search;
pub mod supporters;
pub mod written;
