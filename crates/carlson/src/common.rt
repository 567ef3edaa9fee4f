// Steps that several of the entries make.
ghost use Rattle.std.specs.Prelude.{◌≡◌};
ghost use Rattle.carlson.specs.Common.{apart, lambda_with, third_kind};

use crate::constants::EPSILON;
use binary64::abs;

// The cap on RD's and RG's mean, which the Rust does not have; document 01 adds it.
pub const MEAN_CAP: u32 = 40;

// Whether two running means are still so far apart that another pass is wanted.
pub fn still_apart(xn: f64, yn: f64) -> bool
    ensures { result ≡ apart xn yn }
{
    abs(xn - yn) >= 2.7 * EPSILON * abs(xn)
}

// By how much a pass of duplication moves its arguments; beside it the root of the last one, which RD's sum wants too.
#[derive(Clone, Copy)]
pub struct Lambda {
    pub lambda: f64,
    pub rz: f64,
}

// From the arguments' roots.
pub fn lambda_with(rx: f64, ry: f64, rz: f64) -> Lambda
    ensures { result ≡ lambda_with rx ry rz }
{
    Lambda {
        lambda: rx * ry + rx * rz + ry * rz,
        rz,
    }
}

// The series of RD and RJ in the symmetric functions of their corrections (DLMF 19.36.2).
pub fn third_kind(e2: f64, e3: f64, e4: f64, e5: f64) -> f64
    ensures { result ≡ third_kind e2 e3 e4 e5 }
{
    1.0 - 3.0 * e2 / 14.0 + e3 / 6.0 + 9.0 * e2 * e2 / 88.0 - 3.0 * e4 / 22.0 - 9.0 * e2 * e3 / 52.0
        + 3.0 * e5 / 26.0
        - e2 * e2 * e2 / 16.0
        + 3.0 * e3 * e3 / 40.0
        + 3.0 * e2 * e4 / 20.0
        + 45.0 * e2 * e2 * e3 / 272.0
        - 9.0 * (e3 * e4 + e2 * e5) / 68.0
}
