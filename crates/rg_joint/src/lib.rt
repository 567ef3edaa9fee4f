// RG in general, before its checks and rescaling: RF and RD in one loop.
#![tactic(auto)]

mod joint;

pub use crate::joint::joined;
