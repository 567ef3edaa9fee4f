// RC's closed forms. For y < 0 the integral is singular, and its Cauchy principal value is a prefix times RC at other arguments.
ghost use Rattle.std.specs.Prelude.{◌≡◌};
ghost use Rattle.std.specs.Float.Ieee.{neg};
ghost use Rattle.binary64.specs.Operators.{◌⊖◌};
ghost use Rattle.series.specs.Ln1p.{ln_1p};
ghost use Rattle.rc_cases.specs.Cases.{rc_steps, rc_cases, rc_at_zero, rc_at_equal, rc_by_atan, rc_by_ln1p, rc_by_ln};

use crate::roots::{all_roots, both_roots};
use carlson::constants::PI_2;
use root::sqrt;
use series::{atan_ahead, ln_1p, ln_large};

// RC(0, y)
fn at_zero(prefix: f64, y: f64) -> f64
    ensures { result ≡ rc_at_zero prefix y }
{
    prefix * PI_2 / sqrt(y)
}

// RC(x, x)
fn at_equal(prefix: f64, x: f64) -> f64
    ensures { result ≡ rc_at_equal prefix x }
{
    prefix / sqrt(x)
}

// x < y. One and the square of the root is y / x, so that what `atan` wants for its quotient is there before the root is.
fn by_atan(prefix: f64, x: f64, y: f64) -> f64
    ensures { result ≡ rc_by_atan prefix x y }
{
    let r = both_roots((y - x) / x, y - x);
    prefix * atan_ahead(r.x, x / y) / r.y
}

// Of both logarithms LLVM makes much code, so it stands apart: RJ's helper calls it too, and no caller holds it.
pub fn ln_1p_apart(a: f64) -> f64
    ensures { result ≡ ln_1p a ⊖ ln_1p (neg a) }
{
    ln_1p(a) - ln_1p(-a)
}

// y < x, with y near x: a difference of two logarithms near 1 keeps its digits. Its roots are taken one by one, so that
// `both_roots` has one caller, into which LLVM compiles it.
fn by_ln_1p(prefix: f64, x: f64, y: f64) -> f64
    ensures { result ≡ rc_by_ln1p prefix x y }
{
    prefix * ln_1p_apart(sqrt((x - y) / x)) / (2.0 * sqrt(x - y))
}

// y < x, with y at most x / 2
fn by_ln(prefix: f64, x: f64, y: f64) -> f64
    ensures { result ≡ rc_by_ln prefix x y }
{
    let r = all_roots(x, x - y, y);
    prefix * ln_large((r.x + r.y) / r.z) / r.y
}

pub fn cases(prefix: f64, x: f64, y: f64) -> f64
    ensures { result ≡ rc_cases prefix x y }
{
    if x == 0.0 {
        return at_zero(prefix, y);
    }
    if x == y {
        return at_equal(prefix, x);
    }
    if y > x {
        return by_atan(prefix, x, y);
    }
    if y / x > 0.5 {
        return by_ln_1p(prefix, x, y);
    }
    by_ln(prefix, x, y)
}

pub fn steps(x: f64, y: f64) -> f64
    ensures { result ≡ rc_steps x y }
{
    if y < 0.0 {
        return cases(sqrt(x / (x - y)), x - y, -y);
    }
    cases(1.0, x, y)
}
