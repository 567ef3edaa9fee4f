// RF, the symmetric elliptic integral of the first kind (elliprf.rs; DLMF 19.16.1).
#![tactic(auto)]

mod means;

ghost use Rattle.std.specs.Prelude.{◌≡◌};
ghost use Rattle.elliprf.specs.Rf.{rf_equal, rf_zero, rf_two, rf_general, rf_steps, rf_unchecked, rf};

use crate::means::agm_of;
use carlson::answer::{Answer, Found, closed, handed, infinite, settle};
use carlson::constants::PI;
use carlson_arguments::checks::{any_infinite3, any_nan3, below3, zeros3};
use carlson_arguments::door::moderate3;
use carlson_arguments::rescaling::{rescales3, scale3};
use elliprc::{elliprc_unchecked, over_root};
use refusals::Refusal;
use rf_duplicate::duplicate::duplicated;
use root::sqrt;

// RF(x, x, x)
fn all_equal(x: f64) -> Found
    ensures { result ≡ rf_equal x }
{
    closed(1.0 / sqrt(x))
}

// RF(0, y, y)
fn one_zero(y: f64) -> Found
    ensures { result ≡ rf_zero y }
{
    closed(PI / (2.0 * sqrt(y)))
}

// RF(x, y, y), which is RC's answer whole
fn two_equal(x: f64, y: f64) -> Found
    ensures { result ≡ rf_two x y }
{
    elliprc_unchecked(x, y)
}

// No two alike. A zero goes to the mean with the two others, in the Rust's order.
fn general(x: f64, y: f64, z: f64) -> Found
    ensures { result ≡ rf_general x y z }
{
    if x == 0.0 {
        return agm_of(z, y);
    }
    if y == 0.0 {
        return agm_of(x, z);
    }
    if z == 0.0 {
        return agm_of(x, y);
    }
    duplicated(x, y, z)
}

fn steps(x: f64, y: f64, z: f64) -> Found
    ensures { result ≡ rf_steps x y z }
{
    if x == y {
        if x == z {
            return all_equal(x);
        }
        if z == 0.0 {
            return one_zero(x);
        }
        return two_equal(z, x);
    }
    if x == z {
        if y == 0.0 {
            return one_zero(x);
        }
        return two_equal(y, x);
    }
    if y == z {
        if x == 0.0 {
            return one_zero(y);
        }
        return two_equal(x, y);
    }
    general(x, y, z)
}

// The inner part: any three f64s, any f64 back with its way.
pub fn elliprf_unchecked(x: f64, y: f64, z: f64) -> Found
    ensures { result ≡ rf_unchecked x y z }
{
    let scale = scale3(x, y, z);
    if rescales3(x, y, z, scale) {
        return over_root(steps(x / scale, y / scale, z / scale), scale);
    }
    steps(x, y, z)
}

pub fn elliprf(x: f64, y: f64, z: f64) -> Answer
    ensures { result ≡ rf x y z }
{
    if moderate3(x, y, z) {
        let found = steps(x, y, z);
        return settle(handed(found, found.value), Refusal::NoResult);
    }
    if any_nan3(x, y, z) {
        return Err(Refusal::NanGiven);
    }
    if below3(x, y, z) {
        return Err(Refusal::BelowZero);
    }
    if zeros3(x, y, z) {
        return Err(Refusal::Zeros);
    }
    if any_infinite3(x, y, z) {
        return infinite();
    }
    settle(elliprf_unchecked(x, y, z), Refusal::NoResult)
}
