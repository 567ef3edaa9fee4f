// The middle between a pattern and the next, against the power. Normal and subnormal numbers, powers of two and the infinity go
// by one rule: the pattern r has the value c * 2 ^ e units, the next has (c + 1) * 2 ^ e, and their middle is 2 * c + 1 times 2
// ^ e half units.
ghost use Rattle.std.specs.Prelude.{◌≡◌, suc, ◌-◌, ◌/◌, ◌^◌, ◌<◌, ◌≤◌, true};
ghost use Rattle.rounding.specs.Cut.{infinity, passed, reached};
ghost use Rattle.rounding.specs.Laws.{middle};
ghost use Rattle.power.specs.Parts.{cut_at, Held, Told};

use crate::bound::{Side, quick};
use crate::exact::exact;
use std::cmp::Ordering;

const ONE: u64 = 0x10_0000_0000_0000; // 2 ^ 52

const INFINITY: u64 = 0x7ff0_0000_0000_0000; // the pattern of the infinity

// The exponent's field counts from 1, and subnormal numbers have the exponent of the least normal ones.
fn exponent(r: u64) -> u64
    ensures { result ≡ r / 2 ^ 52 - 1 }
{
    let field = r / ONE;
    if 0 < field {
        return field - 1;
    }
    0
}

// On which side of the power the middle of r and r + 1 lies, as far as a bound of one word tells.
pub fn side(n: u64, y: u64, r: u64) -> Side
    requires { Held n y × (r < infinity) }
    ensures { Told result (cut_at n y (middle r (suc r)) (2 ^ 1075)) }
{
    let e = exponent(r);
    quick(n, 2 * (r - e * ONE) + 1, 3 * y + e)
}

// Whether the power is past that middle. At the middle itself the even one of the two would be taken; it is never met, since d²
// n³ 4 ^ t is no power of four: d is odd, and where it is 1, n³ would be 2 to a power that 3 does not divide.
fn past(n: u64, y: u64, r: u64) -> bool
    requires { Held n y × (r < infinity) }
    ensures { result ≡ passed (cut_at n y) r }
{
    let e = exponent(r);
    match exact(n, 2 * (r - e * ONE) + 1, 3 * y + e) {
        Ordering::Less => true,
        Ordering::Equal => r % 2 == 1,
        Ordering::Greater => false,
    }
}

// Whether the power is nearer to r than to the pattern before it.
pub fn reaches(n: u64, y: u64, r: u64) -> bool
    requires { Held n y }
    ensures { (result ≡ reached (cut_at n y) r) × (result ≡ true → r ≤ infinity) }
{
    if r == 0 {
        return true;
    }
    if INFINITY < r {
        return false;
    }
    past(n, y, r - 1)
}
