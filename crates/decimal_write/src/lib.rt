// The shortest decimal that reads back as an f64 above zero, and of those the nearest.
#![tactic(auto)]

mod parts;
mod reading;
mod short;
mod whole;

pub use crate::short::{Short, shortest};
