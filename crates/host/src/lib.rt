// The entry points for a host in C: numbers and buffers go in; the refusal's number is the result, 0 on acceptance, and its detail
// is written to a cell of the caller's.
#![tactic(auto)]

mod answers;
pub mod files;
pub mod formulas;
pub mod readings;
pub mod schedules;
mod states;
pub mod texts;
pub mod translations;
