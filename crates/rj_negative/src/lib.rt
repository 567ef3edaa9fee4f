// RJ for p below zero: the reduction to an RJ at another p.
#![tactic(auto)]

mod reduction;

pub use crate::reduction::{Reduced, carried, reduce};
