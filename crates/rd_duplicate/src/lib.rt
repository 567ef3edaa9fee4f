// RD's duplication: its rounds, its test and its series, for `elliprd` and for RG and RJ.
#![tactic(auto)]

pub mod duplicate;
