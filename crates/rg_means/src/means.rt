// RG with one zero: the arithmetic-geometric mean, its sum compensated so that no digit is lost in it.
ghost use Rattle.std.specs.Prelude.{◌≡◌};
ghost use Rattle.rg_means.specs.Means.{rg_begin, rg_moved, rg_next, rg_mean_value, rg_agm_of};

use carlson::answer::{Answer, agm};
use carlson::common::{MEAN_CAP, still_apart};
use carlson::constants::PI;
use fused::mul_add;
use refusals::Refusal;
use root::{sqrt, sqrt_ahead};
use root_guess::{Ahead, nearly_twice, ready, unready};

// 8 * 2.7 * 2 ^ -52: no answer rests on it.
const TOO_FAR: f64 = 4.8e-15;

// The running means, the sum with what its rounding lost, and the power of two.
#[derive(Clone, Copy)]
pub struct Sums {
    pub xn: f64,
    pub yn: f64,
    pub rg: f64,
    pub lost: f64,
    pub sumpow: f64,
}

fn begin(xn: f64, yn: f64) -> Sums
    ensures { result ≡ rg_begin xn yn }
{
    let mean = (xn + yn) / 2.0;
    let rg = mean * mean;
    Sums {
        xn,
        yn,
        rg,
        lost: mul_add(mean, mean, -rg),
        sumpow: 0.25,
    }
}

// One pass, with the root of the product of the means.
fn moved(s: Sums, t: f64) -> Sums
    ensures { result ≡ rg_moved s t }
{
    let xn = (s.xn + s.yn) / 2.0;
    let sumpow = s.sumpow * 2.0;
    let correction = sumpow * (xn - t) * (xn - t) - s.lost;
    let next = s.rg - correction;
    Sums {
        xn,
        yn: t,
        rg: next,
        lost: (s.rg - next) - correction,
        sumpow,
    }
}

fn next_sums(s: Sums, k: Ahead) -> Sums
    ensures { result ≡ rg_next s }
{
    moved(s, sqrt_ahead(s.xn * s.yn, k))
}

// For the root after that, before the one of this pass is there. None will be wanted where the next means agree: they differ by
// some d * d / (8 * xn). The processor so learns a pass ahead how the loop will end.
fn ready_next(s: Sums, k: Ahead) -> Ahead {
    let d = s.xn - s.yn;
    if d * d > s.xn * s.xn * TOO_FAR {
        return ready((s.xn + s.yn) * 0.25 * nearly_twice(s.xn * s.yn, k));
    }
    unready()
}

fn value_of(s: Sums) -> f64
    ensures { result ≡ rg_mean_value s }
{
    let rf = PI / (s.xn + s.yn);
    s.rg * rf / 2.0
}

// Refused if the cap is spent and the test still says go on. (No `for`: it would have to make that test again behind its end.)
pub fn agm_of(x: f64, z: f64) -> Answer
    ensures { result ≡ rg_agm_of x z }
{
    let mut s = begin(sqrt(x), sqrt(z));
    let mut n: u32 = 0;
    let mut k = ready(s.xn * s.yn);
    loop {
        if still_apart(s.xn, s.yn) {
            if n == MEAN_CAP {
                break Err(Refusal::AgmSpent);
            }
            let later = ready_next(s, k);
            s = next_sums(s, k);
            k = later;
            n += 1;
        } else {
            break Ok(agm(value_of(s), n));
        }
    }
}
