// A work list to go through (document 02, 2026-03): a reader that holds the lent bytes and a place in them, and functions
// over plain slices for other programs, where a job is five words in a row and the place moves past a job. Refused, nothing
// is touched.
#![tactic(auto)]

mod count;
mod held;
mod words;

pub use crate::count::count_jobs;
pub use crate::held::{Reader, begin, moved, next, place};
pub use crate::words::{read_words, write_words};
