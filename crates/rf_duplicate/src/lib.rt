// RF's duplication: its rounds, its test and its series, for `elliprf` and for RG, which runs them beside RD's.
#![tactic(auto)]

pub mod duplicate;
