// Whether a number is the root of a normal one, by the upper word of the square of its digits. This is enough and not needed: it
// refuses the root of one number in some 5,000, and `search` finds that.
ghost use Rattle.std.specs.Prelude.{◌≡◌, ◌^◌, ◌<◌, ◌≤◌, true, from_bits};
ghost use Rattle.std.specs.Float.{binary64};
ghost use Rattle.rounding.specs.Cut.{infinity};
ghost use Rattle.root.specs.Root.{root};
ghost use Rattle.root.specs.Parts.{Held};

use words::high;

const ONE: u64 = 0x10_0000_0000_0000; // 2 ^ 52

const NORMAL: u64 = 2046; // how many exponents' fields, from 1 on, are those of normal numbers

const UNIT: u64 = 0x20_0000_0000_0000; // 2 ^ 53

const TOP: u64 = 0x8000_0000_0000_0000; // 2 ^ 63: the leading digit at the left end of a word

// c is a root's digits, and n the number's at the scale of the upper word of c * c, which leaves less than one off. A half unit
// of the root's last digit is 2 ^ 10 of c, so that c * c may be off by c * 2 ^ 11: in the upper word, by c / 2 ^ 53.
fn held(n: u64, c: u64) -> bool
    requires { (2 ^ 62 ≤ n) × (2 ^ 63 ≤ c) }
    ensures { result ≡ true → Held n c }
{
    let off = c / UNIT;
    let d = std::num::wrapping_sub_u64(n, high(c, c));
    std::num::wrapping_add_u64(d, off - 1) < 2 * off
}

// s must have the exponent of the root's leading digit, which the digits alone do not tell. Where the exponent of b is odd, its
// digits stand one place lower in the square.
fn matches(b: u64, s: u64) -> bool
    requires { (2 ^ 52 ≤ b) × (b < infinity) }
    ensures { result ≡ true → from_bits binary64 s ≡ root (from_bits binary64 b) }
{
    let e = b / ONE;
    if s / ONE != (e + 1023) / 2 {
        return false;
    }
    held((b % ONE * 2048 + TOP) >> (e % 2), s % ONE * 2048 + TOP)
}

// Whether s is the root of the normal number with the pattern b.
pub fn certified(b: u64, s: f64) -> bool
    requires { (2 ^ 52 ≤ b) × (b < infinity) }
    ensures { result ≡ true → s ≡ root (from_bits binary64 b) }
{
    if s > 0.0 {
        return matches(b, f64::to_bits(s));
    }
    false
}

// Whether the number with the pattern s is the root of the normal number with the pattern b: for callers that guess several roots
// and then test them, one after the other. It may refuse a root.
pub fn certain(b: u64, s: u64) -> bool
    ensures { result ≡ true → from_bits binary64 s ≡ root (from_bits binary64 b) }
{
    if std::num::wrapping_sub_u64(b / ONE, 1) < NORMAL {
        return matches(b, s);
    }
    false
}
