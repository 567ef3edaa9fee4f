// ln at every f64, by T. From 2 up and below 1/2 a multiple of ln 2 is the larger part; between them the answer is ln_1p's at the
// distance from 1, which is exact. How near the answers come is in enclosure's `Answers`.
ghost use Rattle.std.specs.Prelude.{◌≡◌, ◌^◌, ◌<◌, ◌≤◌, ◌==◌};
ghost use Rattle.series.specs.Ln.{half, two, ln_from_two, ln_below_half, ln_close, ln_below_two, ln};
ghost use Rattle.series.specs.Ranges.{Exponent, Distance};

use crate::t_series::{multiple, near_one};
use binary64::split;

const TOP: u64 = 0x8000_0000_0000_0000; // the pattern of -0,

const FIELD: u64 = 0x10_0000_0000_0000; // the weight of the exponent's field, 2 ^ 52,

const FULL: u64 = 0x20_0000_0000_0000; // and 2 ^ 53

const HALF: u64 = 0x3fe0_0000_0000_0000; // the patterns of 1/2 (with 53 digits added to it, of a number from 1 to 2),

const ONE: u64 = 0x3ff0_0000_0000_0000; // of 1,

const TWO: u64 = 0x4000_0000_0000_0000; // of 2,

const INFINITY: u64 = 0x7ff0_0000_0000_0000; // and of the infinities

const MINUS_INFINITY: u64 = 0xfff0_0000_0000_0000;

// ln of m * 2 ^ (e - 52).
fn from_two(e: u64, m: u64) -> f64
    requires { Exponent e m }
    ensures { result ≡ ln_from_two e m }
{
    let n = f64::from_bits(m + HALF);
    multiple(e, (m - FIELD) * 512, (m + FIELD) * 256, 0, 2.0 / (n + 1.0))
}

// ln of m * 2 ^ -(e + 53).
fn below_half(e: u64, m: u64) -> f64
    requires { Exponent e m }
    ensures { result ≡ ln_below_half e m }
{
    let n = f64::from_bits(m + HALF);
    multiple(e, (FULL - m) * 512, (FULL + m) * 256, 1, 2.0 / (2.0 + n))
}

// ln at n parts of 2 ^ -53 from 1; below it where s is 1. a is the same distance with its sign.
fn close(s: u64, n: u64, a: f64) -> f64
    requires { (s ≤ 1) × Distance s n }
    ensures { result ≡ ln_close (s == 1) n }
{
    let j = u64::leading_zeros(n) as u64 - 11;
    near_one(s, j, n << j, a)
}

// ln by the pattern b of a number from 0 to 1/2. A subnormal number's digits are shifted up.
fn small(b: u64) -> f64
    requires { b < half }
    ensures { result ≡ ln_below_two b }
{
    if b == 0 {
        return f64::from_bits(MINUS_INFINITY);
    }
    if b < FIELD {
        let z = u64::leading_zeros(b) as u64;
        return below_half(1010 + z, b << (z - 11));
    }
    below_half(1022 - b / FIELD, b % FIELD + FIELD)
}

// The same up to 2; b is the pattern of x.
fn below_two(b: u64, x: f64) -> f64
    requires { b < two }
    ensures { result ≡ ln_below_two b }
{
    if b < HALF {
        return small(b);
    }
    if b < ONE {
        return close(1, ONE - b, x - 1.0);
    }
    if b == ONE {
        return 0.0;
    }
    close(0, 2 * (b - ONE), x - 1.0)
}

pub fn ln(x: f64) -> f64
    ensures { result ≡ ln x }
{
    let b = split(x);
    if b < TWO {
        return below_two(b, x);
    }
    if b < INFINITY {
        return from_two(b / FIELD - 1023, b % FIELD + FIELD);
    }
    if b == INFINITY {
        return x;
    }
    if b == TOP {
        return f64::from_bits(MINUS_INFINITY);
    }
    0.0 / 0.0
}

// The same, with the usual case of whoever knows that x is 2 at least in front.
pub fn ln_large(x: f64) -> f64
    ensures { result ≡ ln x }
{
    if x > 0.0 {
        let b = f64::to_bits(x);
        if std::num::wrapping_sub_u64(b, TWO) < INFINITY - TWO {
            return from_two(b / FIELD - 1023, b % FIELD + FIELD);
        }
    }
    ln(x)
}
