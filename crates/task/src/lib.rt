// What is asked of an accepted file without judging it again: its index, sizes, pairs and places, and the numbering. The
// reader's own modules can be named through this crate.
#![tactic(auto)]

pub use reader::{contents, file, limits};

pub mod asked;
pub mod family;
pub mod filling;
pub mod index;
pub mod indexed;
pub mod numbering;
pub mod problem;
