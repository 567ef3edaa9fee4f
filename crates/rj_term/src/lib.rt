// A term of the sum that RJ adds up for p above zero: RC(1, 1 + y), by the way that keeps its digits.
#![tactic(auto)]

mod helper;
pub mod term;
