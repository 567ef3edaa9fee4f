// How many steps between neighbouring f64 values two bit patterns lie apart (document 02, 2026-11).
#![tactic(auto)]

ghost use Rattle.std.specs.Prelude.{◌≡◌};
ghost use Rattle.distance.specs.Steps.{step_of, apart_of, finite_pattern};

const ZERO: u64 = 0x8000_0000_0000_0000; // the step number of both zeros, and the sign's weight in a pattern

const INFINITY: u64 = 0x7ff0_0000_0000_0000; // the pattern of the infinity

// The patterns of a sign lie in the order of their values, those below zero from it downward.
fn step(b: u64) -> u64
    ensures { result ≡ step_of b }
{
    if b < ZERO {
        return ZERO + b;
    }
    ZERO - (b - ZERO)
}

// For every pattern: also a NaN's, which has a place past the infinity's.
pub fn apart(a: u64, b: u64) -> u64
    ensures { result ≡ apart_of a b }
{
    let s = step(a);
    let t = step(b);
    if s < t {
        return t - s;
    }
    s - t
}

// Neither a NaN's pattern nor an infinity's.
pub fn is_finite_pattern(b: u64) -> bool
    ensures { result ≡ finite_pattern b }
{
    b % ZERO < INFINITY
}
