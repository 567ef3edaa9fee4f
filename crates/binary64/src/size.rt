// The size of an f64, and whether it has one.
ghost use Rattle.std.specs.Prelude.{◌≡◌};
ghost use Rattle.std.specs.Float.Ieee.Scale.{finite};
ghost use Rattle.binary64.specs.Leaves.{absolute};

const TOP: u64 = 0x8000_0000_0000_0000; // the sign's weight in a pattern

const INFINITY: u64 = 0x7ff0_0000_0000_0000; // the pattern of the infinity

// The sign's bit is cleared: one mask, where a comparison with zero would want another for -0.
pub fn abs(x: f64) -> f64
    ensures { result ≡ absolute x }
{
    if x != x {
        return x;
    }
    f64::from_bits(f64::to_bits(x) % TOP)
}

pub fn is_finite(x: f64) -> bool
    ensures { result ≡ finite x }
{
    let i = f64::from_bits(INFINITY);
    if x < i {
        return -i < x;
    }
    false
}
