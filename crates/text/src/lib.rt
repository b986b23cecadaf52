// The formula's text in lent room. `calls` has the functions for any bytes (refusals 1 to 10): the header, the line of a clause by its
// number, and as many lines as fit. All others are for an accepted file with its index.
#![tactic(auto)]

pub mod calls;
pub mod header;
pub mod runs;
