// Lines of the listing's form to a packed work list (document 02, 2026-03), the input as it comes.
#![tactic(auto)]

mod jobs;
mod stream;

pub use crate::jobs::job_of;
pub use crate::stream::{BLOCK, HELD, Progress, feed, finish};
