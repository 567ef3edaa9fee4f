// The square root of an f64, exactly rounded, at every f64.
//
// `guess` finds it by plain f64 arithmetic; nothing is proved of that. `certified` tests it in whole numbers, and what passes is
// proved to be the root. Where the guess is one off, or the number is subnormal, `search` finds the root, in a bounded number
// of steps. A caller does not wait for the test: the processor runs on past it. `find` tells which of these found the root, so
// that a program can count how good the guess is.
#![tactic(auto)]

mod certificate;
mod exact;
pub mod parts;
pub mod together;
mod way;

ghost use Rattle.std.specs.Prelude.{◌≡◌, ◌^◌, ◌<◌, from_bits};
ghost use Rattle.std.specs.Float.{binary64};
ghost use Rattle.rounding.specs.Cut.{infinity};
ghost use Rattle.root.specs.Root.{root};

pub use crate::certificate::certain;
use crate::certificate::certified;
use crate::exact::search;
use crate::parts::scaled;
use crate::together::numbers3;
pub use crate::way::{Found, Way};
use root_guess::{Ahead, by_ahead, guess, two_factors};

const ONE: u64 = 0x10_0000_0000_0000; // 2 ^ 52

const INFINITY: u64 = 0x7ff0_0000_0000_0000; // the pattern of the infinity

const NORMAL: u64 = 2046; // how many exponents' fields, from 1 on, are those of normal numbers

// The root of the f64 that has the pattern b, finite and above zero, in whole numbers.
fn searched(b: u64) -> Found
    requires { (0 < b) × (b < infinity) }
    ensures { result.value ≡ root (from_bits binary64 b) }
{
    let p = scaled(b);
    let d = search(p.n);
    let way = d.way;
    let value = f64::from_bits(p.y * ONE + d.c);
    Found { value, way }
}

// The root without a guess, and what found it.
fn exactly(x: f64) -> Found
    ensures { result.value ≡ root x }
{
    if x > 0.0 {
        let b = f64::to_bits(x);
        if b < INFINITY {
            return searched(b);
        }
        return Found {
            value: x,
            way: Way::Rule,
        };
    }
    if x == 0.0 {
        return Found {
            value: x,
            way: Way::Rule,
        };
    }
    Found {
        value: 0.0 / 0.0,
        way: Way::Rule,
    }
}

// The root, and what found it.
pub fn find(x: f64) -> Found
    ensures { result.value ≡ root x }
{
    if x > 0.0 {
        let b = f64::to_bits(x);
        if std::num::wrapping_sub_u64(b / ONE, 1) < NORMAL {
            let s = guess(b);
            if certified(b, s) {
                return Found {
                    value: s,
                    way: Way::Guess,
                };
            }
        }
    }
    exactly(x)
}

// The root where `sqrt` has none yet.
fn rest(x: f64) -> f64
    ensures { result ≡ root x }
{
    let found = exactly(x);
    found.value
}

// `find` over again, so that no struct is in the way. `rest` is called twice, so that the compiler leaves it out of line.
pub fn sqrt(x: f64) -> f64
    ensures { result ≡ root x }
{
    if x > 0.0 {
        let b = f64::to_bits(x);
        if std::num::wrapping_sub_u64(b / ONE, 1) < NORMAL {
            let s = guess(b);
            if certified(b, s) {
                return s;
            }
        }
        return rest(x);
    }
    rest(x)
}

// The same where all but the number was made ready ahead: in a chain of roots. It is small enough to be compiled into each loop.
// The test for NaN stands in the middle of the guess (`two_factors`); `certain` tells the sign.
pub fn sqrt_ahead(x: f64, k: Ahead) -> f64
    ensures { result ≡ root x }
{
    let factors = two_factors(x, k);
    if numbers3(x, factors, factors) {
        let s = by_ahead(x, k, factors);
        if s > 0.0 {
            if certain(f64::to_bits(x), f64::to_bits(s)) {
                return s;
            }
        }
    }
    sqrt(x)
}
