// A line of the bench to its reply, and the reply to its tally.
#![tactic(auto)]

mod asked;
mod counts;

pub use crate::asked::reply_to;
pub use crate::counts::tallied;
