// The rounded root of n * 2 ^ 52: the whole number c with c * (c - 1) < n * 2 ^ 52 ≤ c * (c + 1).
// A product is formed by the halves of c, c = h * 2 ^ 26 + l, so that it fits 64 bits.
ghost use Rattle.std.specs.Prelude.{◌≡◌, ◌+◌, ◌*◌, ◌^◌, ◌<◌, ◌≤◌, true, nat_lt};
ghost use Rattle.root.specs.Parts.{RootDigits};

use crate::way::Way;

const HALF: u64 = 0x400_0000; // 2 ^ 26

const ONE: u64 = 0x10_0000_0000_0000; // 2 ^ 52

const TWO: u64 = 0x3fe0_0000_0000_0000; // with the 53 digits, the pattern of a number from 1 to 2

const FOUR: u64 = 0x3ff0_0000_0000_0000; // and from 2 to 4

// Whether n * 2 ^ 52 is above c * (c + 1), so that the root is above c.
fn above(n: u64, c: u64) -> bool
    requires { c ≤ 2 ^ 53 }
    ensures { result ≡ nat_lt (c * (c + 1)) (n * 2 ^ 52) }
{
    let h = c / HALF;
    let l = c % HALF;
    h * h + (2 * h * l + h + (l * l + l) / HALF) / HALF < n
}

// Whether c is the root, where it has 53 digits.
fn is_root(n: u64, c: u64) -> bool
    ensures { result ≡ true → RootDigits n c }
{
    if c / ONE != 1 {
        return false;
    }
    if above(n, c) {
        return false;
    }
    above(n, c - 1)
}

// The root, by halving the range that it lies in: 52 turns, whatever n is.
fn bisect(n: u64) -> u64
    requires { (2 ^ 52 ≤ n) × (n + 2 ≤ 2 ^ 54) }
    ensures { RootDigits n result }
{
    let mut low = ONE - 1;
    for turn in (0..52u64).rev() {
        let middle = low + (1 << turn);
        if above(n, middle) {
            low = middle;
        }
    }
    low + 1
}

// Heron's rule: the mean of r and v / r is nearer to the root of v than r is. h is half of v.
fn nearer(h: f64, r: f64) -> f64 {
    r * 0.5 + h / r
}

// A guess at the root from n alone, any number where the guess is no number. With v from 1 to 4, the first r is at most 0.6 %
// off, and three steps leave no more than their own rounding.
fn near(n: u64) -> u64
    requires { n < 2 ^ 54 }
{
    let v = if n < 2 * ONE {
        f64::from_bits(n + TWO)
    } else {
        f64::from_bits(n / 2 + FOUR)
    };
    let h = v * 0.5;
    let r = 0.5186 + v * (0.526 - v * 0.0395);
    let s = nearer(h, nearer(h, nearer(h, r)));
    if s > 0.0 {
        return f64::to_bits(s).wrapping_sub(TWO);
    }
    0
}

// The digits of a root, and what found them.
#[derive(Clone, Copy)]
pub struct Digits {
    pub c: u64,
    pub way: Way,
}

// The root: near the guess, as far as tests have shown, and in any case by `bisect`.
pub fn search(n: u64) -> Digits
    requires { (2 ^ 52 ≤ n) × (n + 2 ≤ 2 ^ 54) }
    ensures { RootDigits n result.c }
{
    let c = near(n);
    if is_root(n, c) {
        return Digits {
            c,
            way: Way::Second,
        };
    }
    let before = c.wrapping_sub(1);
    if is_root(n, before) {
        return Digits {
            c: before,
            way: Way::Neighbour,
        };
    }
    let after = c.wrapping_add(1);
    if is_root(n, after) {
        return Digits {
            c: after,
            way: Way::Neighbour,
        };
    }
    Digits {
        c: bisect(n),
        way: Way::Bisection,
    }
}
