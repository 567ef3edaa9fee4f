// atan, by Euler's series. How near the answers come to it is in enclosure's `Answers`.
ghost use Rattle.std.specs.Prelude.{◌≡◌, ◌^◌, ◌<◌, ◌≤◌, ◌==◌};
ghost use Rattle.enclosure.specs.Rules.{atan_answer};
ghost use Rattle.series.specs.Atan.{tiny, one, far, below_one, above_one, atan};

use crate::quotient::{inverse, quotient};
use crate::scaled::scaled;
use binary64::split;
use pieces::euler;
use words::high;

const TOP: u64 = 0x8000_0000_0000_0000; // the weights in a pattern: of the sign,

const FIELD: u64 = 0x10_0000_0000_0000; // and of the exponent's field, 2 ^ 52

const TINY: u64 = 0x3e40_0000_0000_0000; // the patterns of 2 ^ -27,

const ONE: u64 = 0x3ff0_0000_0000_0000; // of 1,

const PAST_ONE: u64 = 0x3ff0_0000_0000_0001; // of the next one,

const FAR: u64 = 0x43e0_0000_0000_0000; // of 2 ^ 63,

const INFINITY: u64 = 0x7ff0_0000_0000_0000; // of the infinity,

const QUARTER_PI: u64 = 0x3fe9_21fb_5444_2d18; // of atan at 1,

const HALF_PI: u64 = 0x3ff9_21fb_5444_2d18; // and at the infinity

const PARTS: u64 = 0x4000_0000_0000_0000; // 2 ^ 62: one in parts of 2 ^ -62

const HALF_PI_PARTS: u64 = 0x6487_ed51_10b4_611a; // and π/2, rounded down

// atan of tau parts of 2 ^ -(62 + j), in these parts. For the quotient, unit is near 1 / (1 + t²), where t is that number.
fn arc(j: u64, tau: u64, unit: f64) -> u64
    requires { (j ≤ 31) × (tau ≤ 2 ^ 62) }
    ensures { result ≡ atan_answer j tau }
{
    let u = high(2 * tau, tau) >> (2 * j);
    let f = quotient(u, PARTS / 2 + u, unit);
    let front = high(2 * tau, 2 * (PARTS - f));
    high(2 * front, euler(4 * f))
}

// From 2 ^ -27 to 1, by the pattern a of the size of x; negative where s is 1. unit is near 1 / (1 + x * x).
fn below_one(s: u64, a: u64, unit: f64) -> f64
    requires { (s ≤ 1) × (tiny ≤ a) × (a < one) }
    ensures { result ≡ below_one (s == 1) a }
{
    let j = 1022 - a / FIELD;
    scaled(arc(j, (a % FIELD + FIELD) * 512, unit), 62 + j, s)
}

// From 1 to 2 ^ 63, likewise: π/2 less atan of the inverse.
fn above_one(s: u64, a: u64, unit: f64) -> f64
    requires { (s ≤ 1) × (one < a) × (a < far) }
    ensures { result ≡ above_one (s == 1) a }
{
    let near = 1.0 / f64::from_bits(a % FIELD + ONE);
    let tau = inverse((a % FIELD + FIELD) * 512, near) >> (a / FIELD - 1023);
    scaled(HALF_PI_PARTS - arc(0, tau, 1.0 - unit), 62, s)
}

pub fn atan(x: f64) -> f64
    ensures { result ≡ atan x }
{
    let b = split(x);
    let a = b % TOP;
    let s = b / TOP;
    if a < TINY {
        return x;
    }
    if a < ONE {
        return below_one(s, a, 1.0 / (1.0 + x * x));
    }
    if a == ONE {
        return f64::from_bits(QUARTER_PI + s * TOP);
    }
    if a < FAR {
        return above_one(s, a, 1.0 / (1.0 + x * x));
    }
    if a <= INFINITY {
        return f64::from_bits(HALF_PI + s * TOP);
    }
    0.0 / 0.0
}

// The same where unit, near 1 / (1 + x * x), is at hand before x: what is asked most, a number above zero, waits for less. The
// answer is the same whatever unit is.
pub fn atan_ahead(x: f64, unit: f64) -> f64
    ensures { result ≡ atan x }
{
    if x > 0.0 {
        let a = f64::to_bits(x);
        if std::num::wrapping_sub_u64(a, PAST_ONE) < FAR - PAST_ONE {
            return above_one(0, a, unit);
        }
        if std::num::wrapping_sub_u64(a, TINY) < ONE - TINY {
            return below_one(0, a, unit);
        }
    }
    atan(x)
}
