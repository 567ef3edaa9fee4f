// The swing's and the step log's lines (document 02, 2026-01): a line to its reply, the input as it comes.
#![tactic(auto)]

mod lines;
mod stream;

pub use crate::lines::{Kind, State, steps_begin, swings_begin};
pub use crate::stream::{BLOCK, Progress, feed, finish};
