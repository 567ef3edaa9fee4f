// How many calls more there is room for.
ghost use Rattle.std.specs.Prelude.{◌≡◌};
ghost use Rattle.report_words.specs.Words.{room_after};

use crate::WORDS;
use crate::place::BLOCK;

const FUNCTIONS: usize = 6;

// What is left of `room` calls after those of a report; None where there are more calls already. Words in another number hold
// none.
pub fn room_after(room: u64, report: &[u64]) -> Option<u64>
    ensures { result ≡ room_after room report.now }
{
    if report.len() != WORDS {
        return Some(room);
    }
    let mut left = room;
    for k in 0..FUNCTIONS {
        left = left.checked_sub(report[k * BLOCK])?;
    }
    Some(left)
}
