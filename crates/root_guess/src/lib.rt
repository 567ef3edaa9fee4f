// A guess at a root, by plain f64 arithmetic, for `root`, which certifies it. Nothing is proved of it but that it is safe. In
// tests it was the rounded root at all but one number of 320, and there its neighbour.
//
// x is m * scale * scale with 1/2 ≤ m < 2, and r near √m has few digits, so that r * r and d = m - r * r are exact. With
// w = d / (4 * r * r), √m is r + d / (2 * r) * p(w), where p(w) = (√(1 + 4 * w) - 1) / (2 * w), which is
// 1 - w + 2 * w * w - 5 * w * w * w + .. , and |w| is at most 2 ^ -8. A polynomial of degree 6 gives the sum to 2 ^ -61. It is
// written as a product of three factors, which a processor works out side by side. So that no number stands before them, the
// quotients are 1.456 times as large: 1.456 / (2 * r), and its square for w. The factors take u = m * 1.456² / (4 * r * r), which
// is w * 1.456² and 1.456² / 4 more, so that they need not wait for d. The sum with r comes last, so that the only rounding that
// counts is its own. (The factors are written in three different ways, so that LLVM works out no two of them as a pair, for which
// it moves u and the results about: in a chain of roots that took 1.5 ns more.)
#![tactic(auto)]

mod ahead;
mod rows;
mod start;

pub use crate::ahead::{Ahead, by_ahead, nearly_twice, ready, two_factors, unready};
pub use crate::rows::Row;
use crate::rows::row_of;
use crate::start::{slope, start};

const ONE: u64 = 0x10_0000_0000_0000; // 2 ^ 52

const TWO: u64 = 0x20_0000_0000_0000; // 2 ^ 53: below it, a pattern has its digits and the lowest bit of the exponent

const PIECE: u64 = 0x8000_0000_0000; // 2 ^ 47: above it, six bits of those name the piece

const WIDE_PIECE: u64 = 0x1_0000_0000_0000; // 2 ^ 48: above it, five bits

const HALF: u64 = 0x3fe0_0000_0000_0000; // the pattern of 1/2

// At the root of the f64 that has the pattern b, finite and above zero; at any other pattern, some number or NaN.
pub fn guess(b: u64) -> f64 {
    let piece = b % TWO / PIECE;
    let near = start(piece);
    let by = slope(piece);
    let scale = f64::from_bits((b / TWO + 512) * ONE);
    let m = f64::from_bits(b % TWO + HALF);
    let d = m - near.1;
    let u = m * by.1;
    let e = u + 0.13092316879844296;
    let f = u - 0.6632040417534174;
    let a = d * (by.0 * scale);
    let left = a * (e * e) + a * 0.36426702543150663;
    let g = 1.3946590464812034 - u;
    let h = u - 1.3946590464812034;
    let right = (f * f + 0.8884544985790055) * (0.19848527717193246 - g * h);
    near.0 * scale + left * right
}

// The same in two functions that are small enough to be compiled into every loop, so that several roots are guessed side by side:
// half as many pieces, and a polynomial of degree 7, for numbers 1.49813 times as large.
pub fn row(b: u64) -> Row {
    row_of(b % TWO / WIDE_PIECE)
}

pub fn by_row(b: u64, k: Row) -> f64 {
    let scale = f64::from_bits((b / TWO + 512) * ONE);
    let m = f64::from_bits(b % TWO + HALF);
    let d = m - k.1;
    let u = m * k.3;
    let e = u + 0.15881394795965023;
    let f = u - 1.2190167643047605;
    let g = u - 0.4794124132051312;
    let left = d * (k.2 * scale) * (1.5387691779308437 - u) * (e * e + 0.2855963302142687);
    let right = (f * f + 0.5102329224728166) * (g * g + 0.893901329006175);
    k.0 * scale + left * right
}
