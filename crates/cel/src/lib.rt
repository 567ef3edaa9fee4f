// Bulirsch's cel, the general complete elliptic integral (cel.rs in its general form; document 02, 2026-09).
#![tactic(auto)]

ghost use Rattle.std.specs.Prelude.{◌≡◌};
ghost use Rattle.cel.specs.Cel.{
  either_unbounded,
  both_unbounded,
  several_unbounded,
  cel_unsettled,
  cel_settled,
  cel,
};

use binary64::{abs, is_finite};
use carlson::answer::{Answer, Found, handed, infinite};
use carlson_arguments::checks::{any_nan4, is_infinite};
use cel_passes::passes::steps;
use refusals::Refusal;

#[tactic(auto, unfolding(crate::specs::Cel::either_unbounded))]
fn either_unbounded(x: f64, y: f64) -> bool
    ensures { result ≡ either_unbounded x y }
{
    is_infinite(abs(x)) || is_infinite(abs(y))
}

#[tactic(auto, unfolding(crate::specs::Cel::both_unbounded))]
fn both_unbounded(x: f64, y: f64) -> bool
    ensures { result ≡ both_unbounded x y }
{
    is_infinite(abs(x)) && is_infinite(abs(y))
}

#[tactic(auto, unfolding(crate::specs::Cel::several_unbounded))]
fn several_unbounded(kc: f64, p: f64, a: f64, b: f64) -> bool
    ensures { result ≡ several_unbounded kc p a b }
{
    both_unbounded(kc, p)
        || both_unbounded(a, b)
        || (either_unbounded(kc, p) && either_unbounded(a, b))
}

// The steps gave no finite value: the arguments say why, as they were given.
#[tactic(auto, unfolding(crate::specs::Cel::cel_unsettled))]
fn unsettled(kc: f64, p: f64, a: f64, b: f64) -> Answer
    ensures { result ≡ cel_unsettled kc p a b }
{
    if any_nan4(kc, p, a, b) {
        return Err(Refusal::NanGiven);
    }
    if several_unbounded(kc, p, a, b) {
        return Err(Refusal::SeveralInfinite);
    }
    if either_unbounded(kc, p) {
        return infinite();
    }
    if either_unbounded(a, b) {
        return Err(Refusal::AOrBInfinite);
    }
    Err(Refusal::NoResult)
}

// What was found is put together anew, field by field: copied whole, the bytes between its fields are copied too, one by one.
#[tactic(auto, unfolding(crate::specs::Cel::cel_settled))]
fn settled(found: Found, kc: f64, p: f64, a: f64, b: f64) -> Answer
    ensures { result ≡ cel_settled found kc p a b }
{
    let value = found.value;
    if is_finite(value) {
        return Ok(handed(found, value));
    }
    unsettled(kc, p, a, b)
}

#[tactic(auto, unfolding(crate::specs::Cel::cel))]
pub fn cel(kc: f64, p: f64, a: f64, b: f64) -> Answer
    ensures { result ≡ cel kc p a b }
{
    if kc == 0.0 || p == 0.0 {
        return Err(Refusal::ZeroGiven);
    }
    settled(steps(kc, p, a, b), kc, p, a, b)
}
