// The swing's and the step log's answers as text (document 02, 2026-01).
#![tactic(auto)]

mod replies;
mod seconds;

pub use crate::replies::{LONGEST_SWING, LONGEST_TOTAL, put_swing, put_total};
