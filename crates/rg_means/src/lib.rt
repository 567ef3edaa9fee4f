// RG with one zero, before its checks and rescaling: a mean whose sum is compensated.
#![tactic(auto)]

mod means;

pub use crate::means::agm_of;
