// A decimal as people write it, byte by byte: a minus, digits, a point with digits after it, and `e` or `E` with a power of ten.
#![tactic(auto)]

mod figures;
mod scan;

pub use crate::figures::Figures;
pub use crate::scan::{Phase, Scan, start, step, whole};
