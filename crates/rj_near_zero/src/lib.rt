// RJ for p below zero, near its zero: the expansion there.
#![tactic(auto)]

mod nearzero;

pub use crate::nearzero::elliprj_pv_near_zero;
