// What ln and ln_1p share: T(s) = s + s³/3 + s⁵/5 + .., and its double with or without a multiple of ln 2. How near the answers
// come is in enclosure's `Answers`.
ghost use Rattle.std.specs.Prelude.{◌≡◌, ◌+◌, ◌-◌, ◌*◌, ◌/◌, ◌^◌, ◌<◌, ◌≤◌, if◌then◌else◌, ◌==◌, nat_eq};
ghost use Rattle.std.specs.Float.{binary64};
ghost use Rattle.std.specs.Float.Ieee.{size, round};
ghost use Rattle.enclosure.specs.Rules.{T-answer, multiple};
ghost use Rattle.series.specs.Ln1p.{seed};
ghost use Rattle.series.specs.Ranges.{Seeded, Multiple, Close};

use crate::quotient::quotient;
use crate::scaled::scaled;
use pieces::odd;
use words::high;

const LN_TWO: u64 = 0x58b9_0bfb_e8e7_bcd5; // ln 2 in parts of 2 ^ -63, rounded down

const FOUR: u64 = 0x4000_0000_0000_0000; // 4 in parts of 2 ^ -60, those of a divisor

// T(s), where s is sg parts of 2 ^ -(62 + j), in these parts. The square in parts of 2 ^ -64 is shifted by j twice over, since
// 2 * j may be more than a word has; with a branch for that, LLVM would make jumps of the table's rows.
fn t_sum(j: u64, sg: u64) -> u64
    requires { Seeded j sg }
    ensures { result ≡ T-answer j sg }
{
    let square = high(4 * sg, 4 * sg) >> j >> j;
    high(2 * sg, odd(square))
}

// e ln 2 + 2 T(s), where s is p / 2d, negative where g is 1; unit is for the quotient. Where e has b digits, e << z is
// e * 2 ^ (64 - b).
pub fn multiple(e: u64, p: u64, d: u64, g: u64, unit: f64) -> f64
    requires { (g ≤ 1) × Multiple e p d }
    ensures { result ≡ round binary64 (g == 1) (multiple (size e) e (T-answer 1 (p * 2 ^ 62 / d))) (2 ^ (63 - size e)) }
{
    let z = u64::leading_zeros(e) as u64;
    let t = t_sum(1, quotient(p, d, unit));
    scaled(high(e << z, LN_TWO) + (t >> (63 - z)), z - 1, g)
}

// 2 + a or 2 - a, twice over, from the size of a.
fn divisor(s: u64, c: u64) -> u64
    requires { c < 2 ^ 60 }
    ensures { result ≡ (if nat_eq s 1 then 2 ^ 62 - 2 * c else 2 ^ 62 + 2 * c) }
{
    if s == 1 {
        return FOUR - 2 * c;
    }
    FOUR + 2 * c
}

// ln_1p of m * 2 ^ -(53 + j), negative where s is 1. a is the same number, for the quotient.
pub fn near_one(s: u64, j: u64, m: u64, a: f64) -> f64
    requires { (s ≤ 1) × Close s j m }
    ensures { result ≡ round binary64 (s == 1) (T-answer j (seed (s == 1) j m)) (2 ^ (61 + j)) }
{
    let sg = quotient(m * 256, divisor(s, (m * 128) >> j), 1.0 / (2.0 + a));
    scaled(t_sum(j, sg), 61 + j, s)
}
