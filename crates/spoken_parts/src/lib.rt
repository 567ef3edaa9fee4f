// What is said to a call with decimals, and its parts: which comes next is a number's to say.
#![tactic(auto)]

mod parts;
mod said;

pub use crate::parts::{PARTS, Part, part_of};
pub use crate::said::{Bad, Form, Said, speaks};
