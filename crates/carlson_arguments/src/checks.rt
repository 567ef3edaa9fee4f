// The tests on arguments, as the Rust's macros make them.
ghost use Rattle.std.specs.Prelude.{◌≡◌};
ghost use Rattle.std.specs.Float.Ieee.{eq, is_nan};
ghost use Rattle.carlson_arguments.specs.Checks.{
  any_nan2,
  any_nan3,
  any_nan4,
  any_infinite2,
  any_infinite3,
  any_infinite4,
  below3,
  zeros_of3,
};
ghost use Rattle.carlson.specs.Constants.{zero, infinity};

use binary64::{abs, min};

pub fn is_nan(x: f64) -> bool
    ensures { result ≡ is_nan x }
{
    x.is_nan()
}

pub fn any_nan2(x: f64, y: f64) -> bool
    ensures { result ≡ any_nan2 x y }
{
    is_nan(x) || is_nan(y)
}

pub fn any_nan3(x: f64, y: f64, z: f64) -> bool
    ensures { result ≡ any_nan3 x y z }
{
    any_nan2(x, y) || is_nan(z)
}

pub fn any_nan4(x: f64, y: f64, z: f64, p: f64) -> bool
    ensures { result ≡ any_nan4 x y z p }
{
    any_nan3(x, y, z) || is_nan(p)
}

// +infinity: no constant can hold it, so it comes by its bits.
pub fn is_infinite(x: f64) -> bool
    ensures { result ≡ eq x infinity }
{
    x == f64::from_bits(0x7ff0_0000_0000_0000)
}

pub fn any_infinite2(x: f64, y: f64) -> bool
    ensures { result ≡ any_infinite2 x y }
{
    is_infinite(x) || is_infinite(y)
}

pub fn any_infinite3(x: f64, y: f64, z: f64) -> bool
    ensures { result ≡ any_infinite3 x y z }
{
    any_infinite2(x, y) || is_infinite(z)
}

// RJ's, whose p may be infinite with either sign.
pub fn any_infinite4(x: f64, y: f64, z: f64, p: f64) -> bool
    ensures { result ≡ any_infinite4 x y z p }
{
    any_infinite3(x, y, z) || is_infinite(abs(p))
}

// By the smallest, which passes over a NaN.
pub fn below3(x: f64, y: f64, z: f64) -> bool
    ensures { result ≡ below3 x y z }
{
    min(min(x, y), z) < 0.0
}

// Whether two of them are zero.
pub fn zeros3(x: f64, y: f64, z: f64) -> bool
    ensures { result ≡ zeros_of3 x y z }
{
    let a = x == 0.0;
    let b = y == 0.0;
    let c = z == 0.0;
    (a && b) || ((a || b) && c)
}
