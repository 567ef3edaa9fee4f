// RC(1, 1 + y), as RJ's sum wants it (elliprj.rs, elliprc1p). Each branch asks for the arguments that reach it, no others
// (specs/Borders.antt); there is none for y = 0, which is of the polynomial's sizes.
ghost use Rattle.std.specs.Prelude.{◌≡◌, ◌&&◌, T};
ghost use Rattle.std.specs.Float.Ieee.{neg, lt, le};
ghost use Rattle.carlson.specs.Constants.{half};
ghost use Rattle.rj_term.specs.Helper.{hundredth, three_halves, Outside, AtHalf};
ghost use Rattle.rj_term.specs.Helper.{by_atan1p, by_logs1p, by_rc1p, by_ln1p, rc1p};

use binary64::abs;
use carlson::answer::{Found, carried, closed};
use elliprc::elliprc_unchecked;
use polynomial::polynomial;
use rc_cases::cases::ln_1p_apart;
use root::sqrt;
use series::{atan, ln};

fn by_atan(y: f64) -> f64
    requires { T (lt hundredth y) }
    ensures { result ≡ by_atan1p y }
{
    atan(sqrt(y)) / sqrt(y)
}

fn by_logs(y: f64) -> f64
    requires { T (lt (neg half) y && lt y (neg hundredth)) }
    ensures { result ≡ by_logs1p y }
{
    let arg = sqrt(-y);
    ln_1p_apart(arg) / (2.0 * sqrt(-y))
}

// The Cauchy principal value.
fn by_rc(y: f64) -> Found
    requires { T (le y (neg three_halves)) }
    ensures { result ≡ by_rc1p y }
{
    let rc = elliprc_unchecked(-y, -1.0 - y);
    carried(sqrt(1.0 / -y) * rc.value, rc.way)
}

// So ln is asked at one number, which is above 2, or at NaN.
fn by_ln(y: f64) -> f64
    requires { AtHalf y }
    ensures { result ≡ by_ln1p y }
{
    ln((1.0 + sqrt(-y)) / sqrt(1.0 + y)) / sqrt(-y)
}

// Between -3/2 and -1/2 RJ asks RC itself.
pub fn elliprc1p(y: f64) -> Found
    requires { Outside y }
    ensures { result ≡ rc1p y }
{
    if abs(y) <= 0.01 {
        return closed(polynomial(y));
    }
    if y > 0.0 {
        return closed(by_atan(y));
    }
    if y > -0.5 {
        return closed(by_logs(y));
    }
    if y < -1.0 {
        return by_rc(y);
    }
    closed(by_ln(y))
}
