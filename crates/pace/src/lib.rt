// The numbers of a line of progress: how many lines end in a block, how much was done in a second, what part of the input was
// read.
#![tactic(auto)]

mod ends;
mod numbers;

pub use crate::ends::lines_in;
pub use crate::numbers::{due, known, percent, rate};
