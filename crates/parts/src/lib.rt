// Parts of a run of lines in lent room.
#![tactic(auto)]

pub mod excluding;
pub mod following;
pub mod next;
pub mod single;
