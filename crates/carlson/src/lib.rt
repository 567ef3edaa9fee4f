// What the five entries share: the answer, the numbers of the refusals, the constants, the series of the third kind.
#![tactic(auto)]

pub mod answer;
pub mod common;
pub mod constants;
