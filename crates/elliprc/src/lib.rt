// RC, the degenerate symmetric elliptic integral of the first kind (elliprc.rs; DLMF 19.16.6). It is elementary: closed forms
// only.
#![tactic(auto)]

ghost use Rattle.std.specs.Prelude.{◌≡◌};
ghost use Rattle.elliprc.specs.Rc.{rc, rc_unchecked, rc_found, over_root};

use carlson::answer::{Answer, Found, closed, rescaled, settle, settle_late};
use carlson_arguments::checks::{any_infinite2, any_nan2};
use carlson_arguments::door::{moderate, moderate2};
use carlson_arguments::rescaling::{rescales2, scale2};
use rc_cases::cases::{cases, steps};
use refusals::Refusal;
use root::sqrt;

fn found(x: f64, y: f64) -> Found
    ensures { result ≡ rc_found x y }
{
    closed(steps(x, y))
}

// What was found at the rescaled arguments, over the scale's root.
pub fn over_root(found: Found, scale: f64) -> Found
    ensures { result ≡ over_root found scale }
{
    rescaled(found, found.value / sqrt(scale))
}

// The inner part: any two f64s, any f64 back.
pub fn elliprc_unchecked(x: f64, y: f64) -> Found
    ensures { result ≡ rc_unchecked x y }
{
    let scale = scale2(x, y);
    if rescales2(x, y, scale) {
        return over_root(found(x / scale, y / scale), scale);
    }
    found(x, y)
}

// At any two f64s.
fn checked(x: f64, y: f64) -> Answer
    ensures { result ≡ rc x y }
{
    if moderate2(x, y) {
        return settle(found(x, y), Refusal::RcNoResult);
    }
    if x < 0.0 {
        return Err(Refusal::BelowZero);
    }
    if y == 0.0 {
        return Err(Refusal::ZeroGiven);
    }
    settle_late(
        elliprc_unchecked(x, y),
        any_nan2(x, y),
        any_infinite2(x, y),
        Refusal::RcNoResult,
    )
}

// Two moderate arguments are answered here. This is small enough to be compiled into its callers, so that no answer is put
// together in memory; `checked` is called twice, so that LLVM leaves it where it is.
pub fn elliprc(x: f64, y: f64) -> Answer
    ensures { result ≡ rc x y }
{
    if moderate(x) {
        if moderate(y) {
            return settle(closed(cases(1.0, x, y)), Refusal::RcNoResult);
        }
        return checked(x, y);
    }
    checked(x, y)
}
