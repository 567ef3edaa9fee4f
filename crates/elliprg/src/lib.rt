// RG, the symmetric elliptic integral of the second kind (elliprg.rs; DLMF 19.16.2_5).
#![tactic(auto)]

ghost use Rattle.std.specs.Prelude.{◌≡◌, false};
ghost use Rattle.elliprg.specs.Rg.{
  rg_equal,
  rg_zero,
  rg_two,
  rg_alone,
  rg_top,
  rg_low,
  rg_sorted,
  rg_steps,
  times_root,
  rg_unchecked,
  rg_settled,
  rg,
};

use carlson::answer::{Answer, carried, closed, handed, rescaled, settle_late};
use carlson::constants::PI;
use carlson_arguments::checks::{any_nan3, below3};
use carlson_arguments::door::moderate3;
use carlson_arguments::rescaling::{rescales3, scale3};
use elliprc::elliprc_unchecked;
use refusals::Refusal;
use rg_joint::joined;
use rg_means::agm_of;
use root::sqrt;
use sorting::{Triple, largest_first};

// RG(x, x, x)
fn all_equal(x: f64) -> Answer
    ensures { result ≡ rg_equal x }
{
    Ok(closed(sqrt(x)))
}

// RG(0, y, y)
fn one_zero(y: f64) -> Answer
    ensures { result ≡ rg_zero y }
{
    Ok(closed(PI * sqrt(y) / 4.0))
}

// RG(x, y, y)
fn two_equal(x: f64, y: f64) -> Answer
    ensures { result ≡ rg_two x y }
{
    let rc = elliprc_unchecked(x, y);
    Ok(carried((y * rc.value + sqrt(x)) / 2.0, rc.way))
}

// RG(0, 0, x)
fn alone(x: f64) -> Answer
    ensures { result ≡ rg_alone x }
{
    Ok(closed(sqrt(x) / 2.0))
}

// The two larger ones are equal.
fn top_equal(x: f64, y: f64, z: f64) -> Answer
    ensures { result ≡ rg_top x y z }
{
    if y == z {
        return all_equal(x);
    }
    if y == 0.0 {
        return one_zero(x);
    }
    two_equal(y, x)
}

// The two smaller ones are equal.
fn low_equal(x: f64, y: f64) -> Answer
    ensures { result ≡ rg_low x y }
{
    if y == 0.0 {
        return alone(x);
    }
    two_equal(x, y)
}

// y <= z <= x, but for NaN.
fn in_order(x: f64, y: f64, z: f64) -> Answer
    ensures { result ≡ rg_sorted x y z }
{
    if x == z {
        return top_equal(x, y, z);
    }
    if y == z {
        return low_equal(x, y);
    }
    if y == 0.0 {
        return agm_of(x, z);
    }
    Ok(joined(x, y, z))
}

fn steps(x: f64, y: f64, z: f64) -> Answer
    ensures { result ≡ rg_steps x y z }
{
    let t = largest_first(Triple { x, y, z });
    in_order(t.x, t.y, t.z)
}

// What was found at the rescaled arguments, times the scale's root.
fn times_root(a: Answer, scale: f64) -> Answer
    ensures { result ≡ times_root a scale }
{
    let found = a?;
    Ok(rescaled(found, found.value * sqrt(scale)))
}

// The inner part: any three f64s, any f64 back with its way, or no. 9.
pub fn elliprg_unchecked(x: f64, y: f64, z: f64) -> Answer
    ensures { result ≡ rg_unchecked x y z }
{
    let scale = scale3(x, y, z);
    if rescales3(x, y, z, scale) {
        return times_root(steps(x / scale, y / scale, z / scale), scale);
    }
    steps(x, y, z)
}

// What was found is put together anew, field by field: copied whole, the bytes between its fields are copied too, one by one.
fn settled(a: Answer, nan: bool) -> Answer
    ensures { result ≡ rg_settled a nan }
{
    let found = a?;
    settle_late(handed(found, found.value), nan, false, Refusal::RgNoResult)
}

pub fn elliprg(x: f64, y: f64, z: f64) -> Answer
    ensures { result ≡ rg x y z }
{
    if moderate3(x, y, z) {
        return settled(steps(x, y, z), false);
    }
    if below3(x, y, z) {
        return Err(Refusal::BelowZero);
    }
    settled(elliprg_unchecked(x, y, z), any_nan3(x, y, z))
}
