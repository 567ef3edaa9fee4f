// Bytes written into a slice that the caller lends, one run after the other: numbers as digits, and texts as they stand. A run
// that does not fit is left out whole, and the place stays.
#![tactic(auto)]

mod numbers;
mod room;
mod text;

pub use crate::numbers::{put_decimal, put_places, put_word, width};
pub use crate::room::{OUT, has_room, least};
pub use crate::text::{push, put_text};
