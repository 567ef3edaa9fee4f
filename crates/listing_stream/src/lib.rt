// The listing's replies (document 01), by the base's entries or the bench profile's: a line to its reply, the input as it comes.
#![tactic(auto)]

mod replies;
mod stream;

pub use crate::stream::{BLOCK, HELD, Progress, begin, feed, finish};
