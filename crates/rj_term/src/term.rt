// A term of RJ's sum (DLMF 19.26.21): RC, and how often it was rescaled.
ghost use Rattle.std.specs.Prelude.{◌≡◌};
ghost use Rattle.rj_term.specs.Term.{rj_middle, rj_term, rj_rescalings};

use crate::helper::elliprc1p;
use carlson::answer::Found;
use elliprc::elliprc_unchecked;

// The roots of the running arguments.
#[derive(Clone, Copy)]
pub struct Roots {
    pub x: f64,
    pub y: f64,
    pub z: f64,
    pub p: f64,
}

fn middle(pn: f64, r: Roots, dn: f64) -> f64
    ensures { result ≡ rj_middle pn r dn }
{
    2.0 * r.p * (pn + r.x * (r.y + r.z) + r.y * r.z) / dn
}

// RC(1, 1 + en), by another way where 1 + en would lose its digits.
pub fn term(pn: f64, r: Roots, dn: f64, en: f64) -> Found
    ensures { result ≡ rj_term pn r dn en }
{
    if en < -0.5 {
        if en > -1.5 {
            return elliprc_unchecked(1.0, middle(pn, r, dn));
        }
        return elliprc1p(en);
    }
    elliprc1p(en)
}

// The rescalings of the passes so far and of one term more.
pub fn rescalings_with(before: u32, rc: Found) -> u32
    ensures { result ≡ rj_rescalings before rc }
{
    std::num::wrapping_add_u32(before, rc.way.rescalings)
}
