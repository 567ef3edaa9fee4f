// RJ for p above zero, before any rescaling.
#![tactic(auto)]

mod duplicate;
pub mod positive;
