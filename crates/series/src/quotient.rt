// A quotient of words as a fraction of 62 binary digits, p * 2 ^ 62 / d: a guess from an f64 that the caller has at hand,
// certified by both words of its product with d; where that fails, by two digits of 31 bits each.
ghost use Rattle.std.specs.Prelude.{◌≡◌, ◌*◌, ◌/◌, ◌^◌, ◌<◌, ◌≤◌, true};
ghost use Rattle.series.specs.Quotient.{Divided, Nearer};

use words::{high, product, product_plus};

const BASE: u64 = 0x8000_0000; // 2 ^ 31

const HALF: u64 = 0x2000_0000_0000_0000; // 2 ^ 61: a half in parts of 2 ^ -62

// A quotient and a rest.
#[derive(Clone, Copy)]
pub struct WithRest {
    pub q: u64,
    pub r: u64,
}

// One more in the quotient, where the rest has room for it.
fn settle(d: u64, q: u64, r: u64) -> WithRest
    requires { q < 2 ^ 32 }
    ensures { Nearer d q r result.q result.r }
{
    if r < d {
        return WithRest { q, r };
    }
    WithRest { q: q + 1, r: r - d }
}

// p * 2 ^ 31 by d. Division by one more than the upper part of d gives a digit that is at most 2 too low, and a rest that is
// easy to know: what is left of p, and the digit times what was put on top of d.
fn digit(p: u64, d: u64) -> WithRest
    requires { (p ≤ d) × (2 ^ 61 ≤ d) × (d < 2 ^ 63) }
    ensures { Divided (p * 2 ^ 31) d result.q result.r }
{
    let upper = d / BASE + 1;
    let q = p / upper;
    let r = p % upper * BASE + q * (BASE - d % BASE);
    let once = settle(d, q, r);
    settle(d, once.q, once.r)
}

// The quotient without a guess.
fn exactly(p: u64, d: u64) -> u64
    requires { (p ≤ d) × (2 ^ 61 ≤ d) × (d < 2 ^ 63) }
    ensures { result ≡ p * 2 ^ 62 / d }
{
    let first = digit(p, d);
    let second = digit(first.r, d);
    first.q * BASE + second.q
}

// Whether q is the quotient: what the lower word of q * d lacks of p * 2 ^ 62 is a rest, and together they make both words.
fn certified(p: u64, d: u64, q: u64) -> bool
    ensures { result ≡ true → q ≡ p * 2 ^ 62 / d }
{
    let lo = p << 62;
    let rest = std::num::wrapping_sub_u64(lo, product(q, d).lo);
    let both = product_plus(q, d, rest, 0);
    if rest < d {
        if both.hi == p / 4 {
            return both.lo == lo;
        }
    }
    false
}

// A guess at the quotient, from 44 digits of it, the lower word of p * 2 ^ 44 and the digits of 2 ^ 124 / d: the first digits
// less 1, so that they are not too high, and with the rest that these leave, which fits a word, the other 18. Nothing is proved
// of it. In tests it was the quotient but for an atan below 2 ^ -23 or above 10 ^ 6, where p is so small that the quotient lies
// just below a whole number.
fn guess(first: u64, p: u64, d: u64, digits: u64) -> u64 {
    let upper = std::num::wrapping_sub_u64(first, 1);
    let rest = std::num::wrapping_sub_u64(p, product(upper, d).lo);
    std::num::wrapping_add_u64(upper << 18, high(rest, digits) >> 42)
}

// unit should be near 2 ^ 61 / d: the quotient is the same whatever it is, but comes later. So the digits of 2 + unit, 12 places
// further to the left, are those of 2 ^ 124 / d.
pub fn quotient(p: u64, d: u64, unit: f64) -> u64
    requires { (p ≤ d) × (2 ^ 61 ≤ d) × (d < 2 ^ 63) }
    ensures { result ≡ p * 2 ^ 62 / d }
{
    let more = 2.0 + unit;
    if more > 0.0 {
        let digits = f64::to_bits(more) << 12;
        let q = guess(high(p, digits) >> 16, p << 44, d, digits);
        if certified(p, d, q) {
            return q;
        }
    }
    exactly(p, d)
}

// The same for p = 2 ^ 61, whose first digits are those of 2 ^ 124 / d.
pub fn inverse(d: u64, unit: f64) -> u64
    requires { (2 ^ 61 ≤ d) × (d < 2 ^ 63) }
    ensures { result ≡ 2 ^ 61 * 2 ^ 62 / d }
{
    let more = 2.0 + unit;
    if more > 0.0 {
        let digits = f64::to_bits(more) << 12;
        let q = guess(digits >> 19, 0, d, digits);
        if certified(HALF, d, q) {
            return q;
        }
    }
    exactly(HALF, d)
}
