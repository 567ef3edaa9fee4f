// What is said to a line of the bench, and of a day's file, as text. Which piece comes next is a number's to say; one loop writes
// them.
#![tactic(auto)]

mod said;
mod tallies;
mod write;
mod written_pieces;

pub use crate::said::Said;
pub use crate::tallies::Tally;
pub use crate::write::put_said;
