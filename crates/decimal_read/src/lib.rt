// A decimal's text to the f64 that it says: `-1.5`, `0.25`, `1e-3`, `6.02E23`, `inf`, `-inf`, `nan`. What is beyond the largest
// f64 is refused, and what is no number is told with its place.
#![tactic(auto)]

mod said;
mod text;

ghost use Rattle.std.specs.Prelude.{◌≡◌};
ghost use Rattle.decimal_read.specs.Read.{settled_as, number_of, read_of};

use crate::said::said;
use crate::text::scan;
use binary64::{is_finite, join};
use listing_read::is_name;

// The patterns of what is said by name.
const INF: u64 = 0x7ff0_0000_0000_0000;

const MINUS_INF: u64 = 0xfff0_0000_0000_0000;

const NAN: u64 = 0x7ff8_0000_0000_0000;

// Why a text says no f64.
#[derive(Clone, Copy, PartialEq, Eq)]
pub enum NoDecimal {
    // its number is beyond the largest f64
    TooLarge,
    // the place of the byte that makes it no number, or the text's end
    NoNumber(usize),
}

#[tactic(auto, unfolding(crate::specs::Read::settled_as))]
fn settled(x: f64) -> Result<f64, NoDecimal>
    ensures { result ≡ settled_as x }
{
    if is_finite(x) {
        return Ok(x);
    }
    Err(NoDecimal::TooLarge)
}

#[tactic(auto, unfolding(crate::specs::Read::number_of, crate::specs::Read::number_from))]
fn number(text: &[u8]) -> Result<f64, NoDecimal>
    ensures { result ≡ number_of text.now }
{
    let s = scan(text)?;
    settled(said(text, s))
}

pub fn read(text: &[u8]) -> Result<f64, NoDecimal>
    ensures { result ≡ read_of text.now }
{
    if is_name(text, b"inf") {
        return Ok(join(INF));
    }
    if is_name(text, b"-inf") {
        return Ok(join(MINUS_INF));
    }
    if is_name(text, b"nan") {
        return Ok(join(NAN));
    }
    number(text)
}
