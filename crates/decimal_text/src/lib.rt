// The text of an f64: the shortest decimal that reads back, laid out for people.
#![tactic(auto)]

mod shape;
mod text;

pub use crate::text::{LONGEST, put_number};
