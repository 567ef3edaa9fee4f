// Whether a decimal reads back as x, and whether none of two does.
ghost use Rattle.std.specs.Prelude.{◌≡◌, not, ◌||◌, ◌+◌, ◌^◌, ◌<◌};
ghost use Rattle.decimal_short.specs.Shortest.{reads};

use binary64::split;
use decimal_nearest::nearest;

pub fn reads(x: f64, d: u64, t: u64) -> bool
    ensures { result ≡ reads x d t }
{
    split(nearest(false, d, t)) == split(x)
}

// Neither d nor the next multiple reads back.
pub fn ended(x: f64, d: u64, t: u64) -> bool
    requires { d + 1 < 2 ^ 64 }
    ensures { result ≡ not (reads x d t || reads x (d + 1) t) }
{
    if reads(x, d, t) {
        return false;
    }
    if reads(x, d + 1, t) {
        return false;
    }
    true
}
