// A packed work list to lines of the listing's form (document 02, 2026-03), the input as it comes.
#![tactic(auto)]

mod stream;
mod text;

pub use crate::stream::{BLOCK, HELD, Progress, feed, left_over};
pub use crate::text::letter;
