// A line of a listing, made by anyone, to what it claims of a job (document 02, 2026-11).
#![tactic(auto)]

mod fields;
mod line;

pub use crate::line::claim_of;
