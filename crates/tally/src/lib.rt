// What a report keeps of one function (document 02, 2026-05), in 64 words that the caller lends: how often it was called, how
// often each number was its refusal, the rounds in all, the most in one call, and the exact sum of its values. Zero words are a
// report of nothing.
#![tactic(auto)]

mod block;
mod counted;
mod join;

pub use crate::block::{BLOCK, add_to_block};
pub use crate::counted::{Counted, counted_of};
pub use crate::join::join_blocks;
