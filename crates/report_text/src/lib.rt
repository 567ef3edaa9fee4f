// The text of a report (document 02, 2026-05), line by line, from its words.
#![tactic(auto)]

mod hex;
mod line;
mod report;
mod word;

pub use crate::line::{put_exact, put_slot, put_sum};
pub use crate::report::{LINES, ROOM, put_header, put_line};
