// A report's words (document 02, 2026-05): a block for each of the six functions that the work lists know, in the order of their
// numbers. Zero words are the report of no list.
#![tactic(auto)]

mod add;
mod both;
mod calls;
mod join;
mod parts;
mod place;

pub use crate::add::add_counted;
pub use crate::both::{join_reports, judge_list, room_for};
pub use crate::parts::{calls_of, most_of, refused_of, rounds_of, sum_of};

pub const WORDS: usize = 384;
