// The f64 of a decimal number by its leading digits.
ghost use Rattle.std.specs.Prelude.{◌≡◌, IfSome};
ghost use Rattle.decimal.specs.Decimal.{decimal_of};

use decimal_words::lead;
use nearest::round_word;

pub fn by_words(s: bool, d: u64, t: u64) -> Option<f64>
    ensures { IfSome result (λ x. x ≡ decimal_of s d t) }
{
    let digits = lead(d, t);
    if digits.v == 0 {
        return None;
    }
    Some(round_word(s, digits.v, digits.e))
}
