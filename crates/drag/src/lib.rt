// The verdict on a knee: the light gate's time for one swing held against the ideal one.
#![tactic(auto)]

mod knee;
mod nanoseconds;

pub use crate::knee::judge;
pub use crate::nanoseconds::Verdict;
