// The bench profile (document 02, 2026-14): five entries beside the old ones, whose arguments may stand in any order and in any
// unit by powers of four.
#![tactic(auto)]

ghost use Rattle.std.specs.Prelude.{◌≡◌};
ghost use Rattle.profile.specs.Profile.{
  rc_plain,
  rf_upward,
  rf_plain,
  rd_upward,
  rd_plain,
  rg_plain,
  rj_upward,
  rj_plain,
  profile_rc,
  profile_rf,
  profile_rd,
  profile_rg,
  profile_rj,
};

use binary64::min;
use carlson::answer::Answer;
use carlson_arguments::checks::{any_nan2, any_nan3, any_nan4, below3, zeros3};
use elliprc::elliprc;
use elliprd::elliprd;
use elliprf::elliprf;
use elliprg::elliprg;
use elliprj::elliprj_positive;
use profile_arguments::{plus_zero, sized2, sized3, sized4};
use refusals::Refusal;
use sorting::{Triple, rise_xy, rising};

fn rc_plain(x: f64, y: f64) -> Answer
    ensures { result ≡ rc_plain x y }
{
    if x < 0.0 {
        return Err(Refusal::BelowZero);
    }
    if y == 0.0 {
        return Err(Refusal::ZeroGiven);
    }
    if any_nan2(x, y) {
        return Err(Refusal::NanGiven);
    }
    if sized2(x, y) {
        return elliprc(x, y);
    }
    Err(Refusal::OutsideProfile)
}

fn rf_upward(x: f64, y: f64, z: f64) -> Answer
    ensures { result ≡ rf_upward x y z }
{
    let t = rising(Triple { x, y, z });
    elliprf(t.x, t.y, t.z)
}

fn rf_plain(x: f64, y: f64, z: f64) -> Answer
    ensures { result ≡ rf_plain x y z }
{
    if any_nan3(x, y, z) {
        return Err(Refusal::NanGiven);
    }
    if below3(x, y, z) {
        return Err(Refusal::BelowZero);
    }
    if zeros3(x, y, z) {
        return Err(Refusal::Zeros);
    }
    if sized3(x, y, z) {
        return rf_upward(x, y, z);
    }
    Err(Refusal::OutsideProfile)
}

fn rd_upward(x: f64, y: f64, z: f64) -> Answer
    ensures { result ≡ rd_upward x y z }
{
    let t = rise_xy(Triple { x, y, z });
    elliprd(t.x, t.y, t.z)
}

#[tactic(auto, unfolding(crate::specs::Profile::rd_plain))]
fn rd_plain(x: f64, y: f64, z: f64) -> Answer
    ensures { result ≡ rd_plain x y z }
{
    if min(x, y) < 0.0 {
        return Err(Refusal::BelowZero);
    }
    if x == 0.0 && y == 0.0 {
        return Err(Refusal::Zeros);
    }
    if z <= 0.0 {
        return Err(Refusal::ZNotAbove);
    }
    if any_nan3(x, y, z) {
        return Err(Refusal::NanGiven);
    }
    if sized3(x, y, z) {
        return rd_upward(x, y, z);
    }
    Err(Refusal::OutsideProfile)
}

fn rg_plain(x: f64, y: f64, z: f64) -> Answer
    ensures { result ≡ rg_plain x y z }
{
    if below3(x, y, z) {
        return Err(Refusal::BelowZero);
    }
    if any_nan3(x, y, z) {
        return Err(Refusal::NanGiven);
    }
    if sized3(x, y, z) {
        return elliprg(x, y, z);
    }
    Err(Refusal::OutsideProfile)
}

fn rj_upward(x: f64, y: f64, z: f64, p: f64) -> Answer
    ensures { result ≡ rj_upward x y z p }
{
    let t = rising(Triple { x, y, z });
    elliprj_positive(t.x, t.y, t.z, p)
}

fn rj_plain(x: f64, y: f64, z: f64, p: f64) -> Answer
    ensures { result ≡ rj_plain x y z p }
{
    if any_nan4(x, y, z, p) {
        return Err(Refusal::NanGiven);
    }
    if p == 0.0 {
        return Err(Refusal::ZeroGiven);
    }
    if below3(x, y, z) {
        return Err(Refusal::BelowZero);
    }
    if zeros3(x, y, z) {
        return Err(Refusal::Zeros);
    }
    if sized4(x, y, z, p) {
        return rj_upward(x, y, z, p);
    }
    Err(Refusal::OutsideProfile)
}

pub fn profile_rc(x: f64, y: f64) -> Answer
    ensures { result ≡ profile_rc x y }
{
    rc_plain(plus_zero(x), plus_zero(y))
}

pub fn profile_rf(x: f64, y: f64, z: f64) -> Answer
    ensures { result ≡ profile_rf x y z }
{
    rf_plain(plus_zero(x), plus_zero(y), plus_zero(z))
}

pub fn profile_rd(x: f64, y: f64, z: f64) -> Answer
    ensures { result ≡ profile_rd x y z }
{
    rd_plain(plus_zero(x), plus_zero(y), plus_zero(z))
}

pub fn profile_rg(x: f64, y: f64, z: f64) -> Answer
    ensures { result ≡ profile_rg x y z }
{
    rg_plain(plus_zero(x), plus_zero(y), plus_zero(z))
}

// The base entry refuses a negative p, with 21.
pub fn profile_rj(x: f64, y: f64, z: f64, p: f64) -> Answer
    ensures { result ≡ profile_rj x y z p }
{
    rj_plain(plus_zero(x), plus_zero(y), plus_zero(z), plus_zero(p))
}
