// The reader of task files: refusals 1 to 7, and a body by its number.
#![tactic(auto)]

pub mod actions;
pub mod checks;
pub mod contents;
pub mod file;
pub mod limits;
