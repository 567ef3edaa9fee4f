// The leading binary digits of a decimal number d * 10 ^ (t - 1200) with d in one word, by a handful of products of words. Where
// these do not tell them, it says so.
#![tactic(auto)]

mod road;

pub use crate::road::lead;
