// RD(0, y, z) at moderate ratios, by the arithmetic-geometric mean and the sum of its squared differences.
ghost use Rattle.std.specs.Prelude.{◌≡◌};
ghost use Rattle.elliprd.specs.Means.{sums_of, rd_mean_value, rd_agm_of};

use carlson::answer::{Answer, agm};
use carlson::common::{MEAN_CAP, still_apart};
use carlson::constants::PI;
use refusals::Refusal;
use root::{sqrt, sqrt_ahead};
use root_guess::{Ahead, nearly_twice, ready, unready};

// 8 * 2.7 * 2 ^ -52: no answer rests on it.
const TOO_FAR: f64 = 4.8e-15;

// The running means, and the running sum with its power of two.
#[derive(Clone, Copy)]
pub struct Sums {
    pub xn: f64,
    pub yn: f64,
    pub sum: f64,
    pub sumpow: f64,
}

fn next_sums(s: Sums, k: Ahead) -> Sums
    ensures { result ≡ sums_of s }
{
    let t = sqrt_ahead(s.xn * s.yn, k);
    let xn = (s.xn + s.yn) / 2.0;
    let sumpow = s.sumpow * 2.0;
    let temp = xn - t;
    Sums {
        xn,
        yn: t,
        sum: s.sum + sumpow * temp * temp,
        sumpow,
    }
}

// For the root after that, before the one of this pass is there. None will be wanted where the next means agree: they differ by
// some d * d / (8 * xn). The processor so learns a pass ahead how the loop will end.
fn ready_next(s: Sums, k: Ahead) -> Ahead {
    let d = s.xn - s.yn;
    if d * d > s.xn * s.xn * TOO_FAR {
        return ready((s.xn + s.yn) * 0.25 * nearly_twice(s.xn * s.yn, k));
    }
    unready()
}

fn value_of(x0: f64, y0: f64, y: f64, z: f64, s: Sums) -> f64
    ensures { result ≡ rd_mean_value x0 y0 y z s }
{
    let rf = PI / (s.xn + s.yn);
    let pt = (x0 + 3.0 * y0) / (4.0 * z * (x0 + y0)) - s.sum / (z * (y - z));
    pt * rf * 3.0
}

// Refused if the cap is spent and the test still says go on. (No `for`: it would have to make that test again behind its end.)
pub fn agm_of(y: f64, z: f64) -> Answer
    ensures { result ≡ rd_agm_of y z }
{
    let x0 = sqrt(y);
    let y0 = sqrt(z);
    let mut s = Sums {
        xn: x0,
        yn: y0,
        sum: 0.0,
        sumpow: 0.25,
    };
    let mut n: u32 = 0;
    let mut k = ready(s.xn * s.yn);
    loop {
        if still_apart(s.xn, s.yn) {
            if n == MEAN_CAP {
                break Err(Refusal::AgmSpent);
            }
            let later = ready_next(s, k);
            s = next_sums(s, k);
            k = later;
            n += 1;
        } else {
            break Ok(agm(value_of(x0, y0, y, z, s), n));
        }
    }
}
