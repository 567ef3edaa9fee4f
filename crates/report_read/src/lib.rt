// The text of a report read back (document 02, 2026-05), line by line, into its words: a line is taken if it is just the line
// that is written of what it says.
#![tactic(auto)]

mod line;
mod number;
mod sum;
mod taken;

pub use crate::taken::{is_header, take_line};
