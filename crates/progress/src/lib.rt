// How far long work has come: a line on standard error at each second of the clock, where it was asked for. Standard output is
// never touched.
#![tactic(auto)]

mod meter;
mod say;

pub use crate::meter::{Meter, asked, begin, is_argument, jobs, lines};
