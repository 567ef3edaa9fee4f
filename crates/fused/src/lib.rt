// The fused multiply-add of f64: a * b + c, formed exactly and rounded once.
// Where all three are normal numbers, which is nearly always, one sum tells that none is a NaN, and their bits tell the rest.
mod numbers;
mod parts;
mod special;
mod sum;
mod wide;

ghost use Rattle.std.specs.Prelude.{◌≡◌};
ghost use Rattle.fused.specs.Fused.{fused};

use crate::numbers::numbers;
use crate::parts::{is_normal, normal};
use crate::special::special;

const TOP: u64 = 0x8000_0000_0000_0000; // the sign's weight in a pattern

pub fn mul_add(a: f64, b: f64, c: f64) -> f64
    ensures { result ≡ fused a b c }
{
    let any = a + b + c;
    if any != any {
        return special(a, b, c);
    }
    let ab = f64::to_bits(a);
    let bb = f64::to_bits(b);
    let cb = f64::to_bits(c);
    if !is_normal(ab % TOP) {
        return special(a, b, c);
    }
    if !is_normal(bb % TOP) {
        return special(a, b, c);
    }
    if !is_normal(cb % TOP) {
        return special(a, b, c);
    }
    numbers(
        a,
        b,
        c,
        normal(ab % TOP),
        normal(bb % TOP),
        normal(cb % TOP),
    )
}
