// The logarithmic decrement of two successive peaks: ln of their quotient.
#![tactic(auto)]

ghost use Rattle.std.specs.Prelude.{◌≡◌, ◌≤◌, ◌^◌};
ghost use Rattle.swing.specs.Period.{within, ratio};
ghost use Rattle.decay.specs.Decrement.{decay_of};

use refusals::Refusal;
use series::ln;

// Up to here every whole number is an f64.
const MOST: u64 = 0x20_0000_0000_0000; // 2 ^ 53

fn in_range(n: u64) -> bool
    ensures { result ≡ within n (2 ^ 53) }
{
    1 <= n && n <= MOST
}

fn quotient(a: u64, b: u64) -> f64
    requires a_bound { a ≤ 2 ^ 53 }
    requires b_bound { b ≤ 2 ^ 53 }
    ensures { result ≡ ratio a b }
{
    a as f64 / b as f64
}

// Any two numbers: ln(a/b), the quotient rounded once, or that a peak is out of range.
pub fn decrement(a: u64, b: u64) -> Result<f64, Refusal>
    ensures { result ≡ decay_of a b }
{
    if in_range(a) && in_range(b) {
        Ok(ln(quotient(a, b)))
    } else {
        Err(Refusal::Amplitude)
    }
}
