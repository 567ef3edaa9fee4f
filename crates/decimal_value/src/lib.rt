// The f64 of a decimal number d * 10 ^ (t - 1200) with d in one word, where a short way knows it: by one operation, or by the
// number's leading digits in words.
#![tactic(auto)]

mod one;
mod rounded;
mod short_ways;
mod tens;

pub use crate::one::by_one;
pub use crate::rounded::by_words;
pub use crate::short_ways::quick;
