// The line of the clause at a place, in lent room that surely suffices.
#![tactic(auto)]

pub mod clauses;
pub mod literals;
pub mod stays;
