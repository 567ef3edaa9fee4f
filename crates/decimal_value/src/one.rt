// The f64 of a short decimal number, by one operation: d and the power of ten are f64s as they stand, so that their product or
// quotient is the exact one, rounded once.
ghost use Rattle.std.specs.Prelude.{◌≡◌, cond, Some, None};
ghost use Rattle.std.specs.Float.Ieee.{neg};
ghost use Rattle.decimal.specs.Decimal.{decimal_of};
ghost use Rattle.decimal_value.specs.Short.{short};

use crate::tens::ten;

// Up to here every whole number is an f64.
const MOST: u64 = 0x20_0000_0000_0000; // 2 ^ 53

const ONES: u64 = 1200; // 10 ^ 0

const FIRST: u64 = 1178; // 10 ^ -22

const LAST: u64 = 1222; // 10 ^ 22

fn signed(s: bool, x: f64) -> f64
    ensures { result ≡ cond s (neg x) x }
{
    if s {
        return -x;
    }
    x
}

// The number, where it is short, and of others nothing.
pub fn by_one(s: bool, d: u64, t: u64) -> Option<f64>
    ensures { result ≡ cond (short d t) (Some (decimal_of s d t)) None }
{
    if d > MOST {
        return None;
    }
    if t < FIRST {
        return None;
    }
    if t > LAST {
        return None;
    }
    if t < ONES {
        return Some(signed(s, d as f64 / ten(ONES - t)));
    }
    Some(signed(s, d as f64 * ten(t - ONES)))
}
