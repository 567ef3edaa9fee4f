// Work lists in packed form (document 02, 2026-03): jobs one after another in a slice that the caller lends, read and
// written at a place in it. A number is written in groups of seven bits, the low one first.
#![tactic(auto)]

mod jobs;
mod numbers;
mod read;
mod write;

pub use crate::jobs::{Job, argument_of, arity};
pub use crate::read::{Got, read_job};
pub use crate::write::{job_length, write_job};
