// A claim of another laboratory held against our answer, and what is known of its table row by row (document 02, 2026-11).
#![tactic(auto)]

mod meeting;
mod rows;

pub use crate::meeting::{Claim, meets};
pub use crate::rows::{Checked, ended, missing, row_after};
