// A table that another laboratory sends, held against ours (document 02, 2026-11): a claim for each job of a work list.
#![tactic(auto)]

mod check;
mod judge;

pub use crate::check::check_table;
pub use crate::judge::judged;
