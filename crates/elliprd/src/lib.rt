// RD, the degenerate symmetric elliptic integral of the third kind (elliprd.rs; DLMF 19.16.5).
//
// What another function answers is bound before it is returned, so that the formulas' answers go straight to the caller
// (docs/PROVING.md, "An answer in memory").
#![tactic(auto)]

mod means;

ghost use Rattle.std.specs.Prelude.{◌≡◌};
ghost use Rattle.elliprd.specs.Rd.{rd_equal, rd_zero, rd_general, rd_ordered, rd_steps, over_scale, rd_unchecked, rd_settled, rd};

use crate::means::agm_of;
use binary64::{is_finite, min};
use carlson::answer::{Answer, closed, handed, rescaled, settle_late};
use carlson::constants::PI;
use carlson_arguments::checks::{any_infinite3, any_nan3};
use carlson_arguments::door::{moderate, moderate3};
use carlson_arguments::rescaling::{rescales3, scale3};
use rd_duplicate::duplicate::duplicated;
use refusals::Refusal;
use root::sqrt;

// RD(x, x, x)
fn all_equal(x: f64) -> Answer
    ensures { result ≡ rd_equal x }
{
    Ok(closed(1.0 / (x * sqrt(x))))
}

// RD(0, y, y)
fn one_zero(y: f64) -> Answer
    ensures { result ≡ rd_zero y }
{
    Ok(closed(3.0 * PI / (4.0 * y * sqrt(y))))
}

// The mean only at moderate ratios: a large y / z makes its identity subtract nearly equal terms.
fn general(x: f64, y: f64, z: f64) -> Answer
    ensures { result ≡ rd_general x y z }
{
    if x == 0.0 {
        if y <= 16.0 * z {
            let a = agm_of(y, z);
            return a;
        }
        let found = duplicated(x, y, z);
        return Ok(found);
    }
    let found = duplicated(x, y, z);
    Ok(found)
}

// x and y are in the order in which the steps want them.
fn ordered(x: f64, y: f64, z: f64) -> Answer
    ensures { result ≡ rd_ordered x y z }
{
    if y == z {
        if x == y {
            return all_equal(x);
        }
        if x == 0.0 {
            return one_zero(y);
        }
        let a = general(x, y, z);
        return a;
    }
    let a = general(x, y, z);
    a
}

fn steps(x: f64, y: f64, z: f64) -> Answer
    ensures { result ≡ rd_steps x y z }
{
    if x == z {
        let a = ordered(y, x, z);
        return a;
    }
    let a = ordered(x, y, z);
    a
}

// What was found at the rescaled arguments, over the scale and then its root.
pub fn over_scale(a: Answer, scale: f64) -> Answer
    ensures { result ≡ over_scale a scale }
{
    let found = a?;
    Ok(rescaled(found, found.value / scale / sqrt(scale)))
}

// The inner part: any three f64s, any f64 back with its way, or no. 9.
pub fn elliprd_unchecked(x: f64, y: f64, z: f64) -> Answer
    ensures { result ≡ rd_unchecked x y z }
{
    let scale = scale3(x, y, z);
    if rescales3(x, y, z, scale) {
        return over_scale(steps(x / scale, y / scale, z / scale), scale);
    }
    steps(x, y, z)
}

// What was found is put together anew, field by field: copied whole, the bytes between its fields are copied too, one by one.
fn settled(a: Answer, nan: bool, unbounded: bool) -> Answer
    ensures { result ≡ rd_settled a nan unbounded }
{
    let found = a?;
    settle_late(
        handed(found, found.value),
        nan,
        unbounded,
        Refusal::NoResult,
    )
}

// At any three f64s.
#[tactic(auto, unfolding(crate::specs::Rd::rd))]
fn checked(x: f64, y: f64, z: f64) -> Answer
    ensures { result ≡ rd x y z }
{
    if moderate3(x, y, z) {
        let a = settled(steps(x, y, z), false, false);
        return a;
    }
    if min(x, y) < 0.0 {
        return Err(Refusal::BelowZero);
    }
    if x == 0.0 && y == 0.0 {
        return Err(Refusal::Zeros);
    }
    if z <= 0.0 {
        return Err(Refusal::ZNotAbove);
    }
    settled(
        elliprd_unchecked(x, y, z),
        any_nan3(x, y, z),
        any_infinite3(x, y, z),
    )
}

// Three moderate arguments, x and y apart from z, are duplicated at once. This is small enough to be compiled into its callers,
// so that the answer is put together where it goes; `checked` is called twice, so that LLVM leaves it where it is.
pub fn elliprd(x: f64, y: f64, z: f64) -> Answer
    ensures { result ≡ rd x y z }
{
    if moderate(x) && x != z && moderate(y) && y != z && moderate(z) {
        let found = duplicated(x, y, z);
        if is_finite(found.value) {
            return Ok(handed(found, found.value));
        }
        return checked(x, y, z);
    }
    checked(x, y, z)
}
