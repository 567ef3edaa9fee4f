// atan, ln and ln_1p of an f64, at every f64: whole-number rules, rounded once. What each answers is in specs/Atan, Ln and Ln1p.
//
// A function takes its argument apart by its bits, works in words of fixed point, and rounds at the end. Two quotients at most,
// one short polynomial (the crate `pieces`), and a few products of which the upper word counts.
#![tactic(auto)]

mod arc;
mod logarithm;
mod one_plus;
mod quotient;
mod scaled;
mod t_series;

pub use crate::arc::{atan, atan_ahead};
pub use crate::logarithm::{ln, ln_large};
pub use crate::one_plus::ln_1p;
