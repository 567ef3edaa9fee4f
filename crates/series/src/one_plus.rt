// ln_1p, by T. How near the answers come to it is in enclosure's `Answers`.
ghost use Rattle.std.specs.Prelude.{◌≡◌};
ghost use Rattle.series.specs.Ln1p.{ln_1p};

use crate::t_series::near_one;
use binary64::split;

const TOP: u64 = 0x8000_0000_0000_0000; // the weights in a pattern: of the sign,

const FIELD: u64 = 0x10_0000_0000_0000; // and of the exponent's field, 2 ^ 52

const TINY: u64 = 0x3c90_0000_0000_0000; // the patterns of 2 ^ -54

const LAST: u64 = 0x3fe8_0000_0000_0000; // and of 3/4

pub fn ln_1p(x: f64) -> f64
    ensures { result ≡ ln_1p x }
{
    let b = split(x);
    let a = b % TOP;
    if a < TINY {
        return x;
    }
    if a <= LAST {
        return near_one(b / TOP, 1022 - a / FIELD, a % FIELD + FIELD, x);
    }
    0.0 / 0.0
}
