// The bench's lines, knees or peaks: a line to its reply, the input as it comes, and a day's tallies at its end.
#![tactic(auto)]

mod lines;
mod stream;

pub use crate::lines::{State, begin};
pub use crate::stream::{BLOCK, HELD, Progress, feed, finish};
