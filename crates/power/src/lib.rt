// The power -3/2 of an f64, exactly rounded, at every f64.
//
// `guess` finds it by plain f64 arithmetic; nothing is proved of that. `is_clear` tests it in whole numbers: the middles beside
// it are squared, multiplied by the number's cube and compared with one. What passes is proved to be the answer. Where one word
// does not tell, or the guess is wrong, `search` finds the answer, in a bounded number of steps. A caller does not wait for the
// test:
// the processor runs on past it. Which of these found the answer is told beside it, so that a program can count how good the
// guess is; `pow_neg_3_2` leaves it away.
#![tactic(auto)]

mod bound;
mod exact;
mod guess;
mod middle;
mod search;
mod way;

ghost use Rattle.std.specs.Prelude.{◌≡◌, ◌<◌, from_bits};
ghost use Rattle.std.specs.Float.{binary64};
ghost use Rattle.rounding.specs.Cut.{infinity};
ghost use Rattle.power.specs.Power.{power};

use crate::guess::guess;
use crate::search::{is_clear, search};
pub use crate::way::{Found, Way};
use root::parts::scaled;

const INFINITY: u64 = 0x7ff0_0000_0000_0000; // the pattern of the infinity

// The power of the f64 that has the pattern b, finite and above zero.
fn positive(b: u64) -> Found
    requires { (0 < b) × (b < infinity) }
    ensures { result.value ≡ power (from_bits binary64 b) }
{
    let p = scaled(b);
    let r = guess(p.n, p.y);
    if is_clear(p.n, p.y, r) {
        let value = f64::from_bits(r);
        return Found {
            value,
            way: Way::Bound,
        };
    }
    let a = search(p.n, p.y, r);
    let way = a.way;
    let value = f64::from_bits(a.r);
    Found { value, way }
}

// The power, and what found it.
pub fn find(a: f64) -> Found
    ensures { result.value ≡ power a }
{
    if a > 0.0 {
        let b = f64::to_bits(a);
        if b < INFINITY {
            return positive(b);
        }
        return Found {
            value: 0.0,
            way: Way::Rule,
        };
    }
    if a == 0.0 {
        let value = f64::from_bits(INFINITY);
        return Found {
            value,
            way: Way::Rule,
        };
    }
    Found {
        value: 0.0 / 0.0,
        way: Way::Rule,
    }
}

pub fn pow_neg_3_2(a: f64) -> f64
    ensures { result ≡ power a }
{
    let found = find(a);
    found.value
}
