// A whole text, scanned.
ghost use Rattle.std.specs.Prelude.{◌≡◌};
ghost use Rattle.decimal_read.specs.Scanned.{ended_at, scanned_of};

use crate::NoDecimal;
use decimal_scan::{Scan, start, step, whole};

#[tactic(auto, unfolding(crate::specs::Scanned::ended_at))]
fn ended(s: Scan, at: usize) -> Result<Scan, NoDecimal>
    ensures { result ≡ ended_at s at }
{
    if whole(s) {
        Ok(s)
    } else {
        Err(NoDecimal::NoNumber(at))
    }
}

// The scan of a text that is a number.
pub fn scan(text: &[u8]) -> Result<Scan, NoDecimal>
    ensures { result ≡ scanned_of text.now }
{
    let mut s = start();
    for (i, b) in text.iter().enumerate() {
        s = step(s, *b);
        if s.phase.is_bad() {
            return Err(NoDecimal::NoNumber(i));
        }
    }
    ended(s, text.len())
}
