// The checker of models: the lowest unmet clause, found on words, the schedule that a model states, and the end of a reading.
#![tactic(auto)]

mod action_pairs;
mod bits;
pub mod end;
mod families;
mod first_two;
mod schedule;
mod search;
mod sizes;
mod stays;
