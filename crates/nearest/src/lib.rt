// The one rounding to an f64: of a word whose lost digits are kept as one flag, its last digit. `Shift` and `Normal` have the
// laws that bring a number of two words to such a word.
#![tactic(auto)]

mod wide;
mod word;

pub use crate::wide::{Digits, top};
pub use crate::word::{Leading, round_word, sticky};
