// The pattern of the answer, from a guess at it.
ghost use Rattle.std.specs.Prelude.{◌≡◌, ◌+◌, ◌<◌, true};
ghost use Rattle.rounding.specs.Cut.{infinity};
ghost use Rattle.power.specs.Parts.{cut_at, Held, Answer};

use crate::bound::Side;
use crate::middle::{reaches, side};
use crate::way::Way;

const INFINITY: u64 = 0x7ff0_0000_0000_0000; // the pattern of the infinity

// Whether r is the answer as far as bounds of one word tell, for a number that is not at an end of the range. This is all that
// most calls do.
pub fn is_clear(n: u64, y: u64, r: u64) -> bool
    requires { Held n y }
    ensures { result ≡ true → Answer (cut_at n y) r }
{
    if r == 0 {
        return false;
    }
    if INFINITY <= r {
        return false;
    }
    match side(n, y, r - 1) {
        Side::Below => match side(n, y, r) {
            Side::Above => true,
            _ => false,
        },
        _ => false,
    }
}

// Whether r is the answer.
fn is_answer(n: u64, y: u64, r: u64) -> bool
    requires { Held n y }
    ensures { result ≡ true → Answer (cut_at n y) r }
{
    if INFINITY < r {
        return false;
    }
    if reaches(n, y, r) {
        return !reaches(n, y, r + 1);
    }
    false
}

// The answer by its binary digits from the highest down, as the definition has it: 63 turns, whatever the number is.
fn digits(n: u64, y: u64) -> u64
    requires { Held n y }
    ensures { Answer (cut_at n y) result }
{
    let mut found: u64 = 0;
    for turn in (0..63u64).rev() {
        let next = found + (1 << turn);
        if reaches(n, y, next) {
            found = next;
        }
    }
    found
}

// A pattern, and what found it.
#[derive(Clone, Copy)]
pub struct Pattern {
    pub r: u64,
    pub way: Way,
}

// At the guess or beside it, as far as tests have shown, and in any case by its digits.
pub fn search(n: u64, y: u64, r: u64) -> Pattern
    requires { Held n y }
    ensures { Answer (cut_at n y) result.r }
{
    if is_answer(n, y, r) {
        return Pattern {
            r,
            way: Way::Product,
        };
    }
    let before = r.wrapping_sub(1);
    if is_answer(n, y, before) {
        return Pattern {
            r: before,
            way: Way::Neighbour,
        };
    }
    let after = r.wrapping_add(1);
    if is_answer(n, y, after) {
        return Pattern {
            r: after,
            way: Way::Neighbour,
        };
    }
    Pattern {
        r: digits(n, y),
        way: Way::Digits,
    }
}
