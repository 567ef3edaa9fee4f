// The rest: NaNs, infinities, zeros and subnormal numbers.
ghost use Rattle.std.specs.Prelude.{◌≡◌};
ghost use Rattle.fused.specs.Fused.{fused};

use crate::numbers::numbers;
use crate::parts::split;
use binary64::is_finite;

const TOP: u64 = 0x8000_0000_0000_0000; // the sign's weight in a pattern

// The operators are right where a or b is not finite or is a zero. An addend that is not finite is the answer, though the rounded
// product could be an infinity of the other sign. A zero is not added: the product may round to a zero, and keeps its sign.
pub fn special(a: f64, b: f64, c: f64) -> f64
    ensures { result ≡ fused a b c }
{
    if !is_finite(a) {
        return a * b + c;
    }
    if !is_finite(b) {
        return a * b + c;
    }
    if !is_finite(c) {
        return c;
    }
    if a == 0.0 {
        return a * b + c;
    }
    if b == 0.0 {
        return a * b + c;
    }
    if c == 0.0 {
        return a * b;
    }
    let ab = f64::to_bits(a);
    let bb = f64::to_bits(b);
    let cb = f64::to_bits(c);
    numbers(a, b, c, split(ab % TOP), split(bb % TOP), split(cb % TOP))
}
