// From an f64 to its bits and back. The machine's own conversions leave open what happens to a NaN, so each tests for it first.
ghost use Rattle.std.specs.Prelude.{◌≡◌};
ghost use Rattle.std.specs.Float.{binary64};
ghost use Rattle.std.specs.Float.Ieee.{of_bits, to_bits};

const TOP: u64 = 0x8000_0000_0000_0000; // the sign's weight in a pattern

const INFINITY: u64 = 0x7ff0_0000_0000_0000; // the pattern of the infinity; past it, up to the sign, lie the NaNs

const QUIET: u64 = 0x7ff8_0000_0000_0000; // the one pattern that stands for every NaN

pub fn split(x: f64) -> u64
    ensures { result ≡ to_bits binary64 x }
{
    if x != x {
        return QUIET;
    }
    f64::to_bits(x)
}

pub fn join(b: u64) -> f64
    ensures { result ≡ of_bits binary64 b }
{
    if b % TOP > INFINITY {
        return 0.0 / 0.0;
    }
    f64::from_bits(b)
}
