// The size of an f64 in whole units, exactly: how many, and which part of one more is left. It decides a verdict, and it is
// rounded for a text.
#![tactic(auto)]

mod parts;
mod size;

pub use crate::parts::{Parts, rounded};
pub use crate::size::parted;
