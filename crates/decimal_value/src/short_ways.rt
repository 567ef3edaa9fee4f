// The two short ways, one after the other.
ghost use Rattle.std.specs.Prelude.{◌≡◌, IfSome};
ghost use Rattle.decimal.specs.Decimal.{decimal_of};

use crate::one::by_one;
use crate::rounded::by_words;

pub fn quick(s: bool, d: u64, t: u64) -> Option<f64>
    ensures { IfSome result (λ x. x ≡ decimal_of s d t) }
{
    by_one(s, d, t).or_else(|| by_words(s, d, t))
}
