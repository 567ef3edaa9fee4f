// What is said to a call with decimals, written: a line for people, or a row of a table. One loop writes the parts.
#![tactic(auto)]

mod text;

pub use crate::text::{put_line, put_reply};
