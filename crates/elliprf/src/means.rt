// RF with one zero: the arithmetic-geometric mean of the roots of the other two (DLMF 19.8).
ghost use Rattle.std.specs.Prelude.{◌≡◌};
ghost use Rattle.elliprf.specs.Means.{rf_means_of, rf_agm_value, rf_agm_of};

use carlson::answer::{Found, agm};
use carlson::common::still_apart;
use carlson::constants::PI;
use root::{sqrt, sqrt_ahead};
use root_guess::{Ahead, nearly_twice, ready, unready};

// The Rust's cap on its passes, which it shares with duplication.
const CAP: u32 = 11;

// 8 * 2.7 * 2 ^ -52: no answer rests on it.
const TOO_FAR: f64 = 4.8e-15;

// The running means.
#[derive(Clone, Copy)]
pub struct Means {
    pub xn: f64,
    pub yn: f64,
}

fn next_means(m: Means, k: Ahead) -> Means
    ensures { result ≡ rf_means_of m }
{
    let t = sqrt_ahead(m.xn * m.yn, k);
    Means {
        xn: (m.xn + m.yn) / 2.0,
        yn: t,
    }
}

// For the root after that, before the one of this pass is there. None will be wanted where the next means agree: they differ by
// some d * d / (8 * xn). The processor so learns a pass ahead how the loop will end.
fn ready_next(m: Means, k: Ahead) -> Ahead {
    let d = m.xn - m.yn;
    if d * d > m.xn * m.xn * TOO_FAR {
        return ready((m.xn + m.yn) * 0.25 * nearly_twice(m.xn * m.yn, k));
    }
    unready()
}

fn value_of(m: Means) -> f64
    ensures { result ≡ rf_agm_value m }
{
    PI / (m.xn + m.yn)
}

// With the cap spent it answers all the same.
pub fn agm_of(x: f64, y: f64) -> Found
    ensures { result ≡ rf_agm_of x y }
{
    let mut m = Means {
        xn: sqrt(x),
        yn: sqrt(y),
    };
    let mut k = ready(m.xn * m.yn);
    'passes: {
        for n in 0..CAP {
            if !still_apart(m.xn, m.yn) {
                break 'passes agm(value_of(m), n);
            }
            let later = ready_next(m, k);
            m = next_means(m, k);
            k = later;
        }
        agm(value_of(m), CAP)
    }
}
