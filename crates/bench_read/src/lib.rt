// A line of the bench as it comes: a knee's `ID L h g T LIMIT`, or two peaks `A B`. The name is the caller's to hold; the numbers
// go through the swing's readers, three and then two. One carriage return may stand at the end.
#![tactic(auto)]

mod ends;
mod rows;

pub use crate::ends::{Knee, Peaks, knee_of, peaks_of};
pub use crate::rows::{
    Field, Row, Stage, feed_row, knee_start, naming, peaks_start, row_step, unbegun,
};
