// A line of a function's name and decimals to what is said to it.
#![tactic(auto)]

mod line_words;
mod numbers;
mod said;

pub use crate::said::said_to;
