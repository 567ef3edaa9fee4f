// A call to its answer: what the entry of that name answers.
#![tactic(auto)]

ghost use Rattle.std.specs.Prelude.{◌≡◌};
ghost use Rattle.elliprj.specs.Rj.{rj};
ghost use Rattle.answers.specs.Answers.{answer_of};

use binary64::join;
use calls::Call;
use carlson::answer::Answer;
use cel::cel;
use elliprc::elliprc;
use elliprd::elliprd;
use elliprf::elliprf;
use elliprg::elliprg;
use elliprj::{elliprj_negative, elliprj_positive};

// RJ by the entry of p's sign (document 02, 2026-10); a zero and a NaN are refused alike by both.
fn rj_by_sign(x: f64, y: f64, z: f64, p: f64) -> Answer
    ensures { result ≡ rj x y z p }
{
    if p < 0.0 {
        return elliprj_negative(x, y, z, p);
    }
    elliprj_positive(x, y, z, p)
}

// The entry of the call's name, at the f64s of its patterns.
pub fn answer_of(call: Call) -> Answer
    ensures { result ≡ answer_of call }
{
    match call {
        Call::Rc(x, y) => elliprc(join(x), join(y)),
        Call::Rf(x, y, z) => elliprf(join(x), join(y), join(z)),
        Call::Rd(x, y, z) => elliprd(join(x), join(y), join(z)),
        Call::Rg(x, y, z) => elliprg(join(x), join(y), join(z)),
        Call::Rj(x, y, z, p) => rj_by_sign(join(x), join(y), join(z), join(p)),
        Call::Cel(kc, p, a, b) => cel(join(kc), join(p), join(a), join(b)),
    }
}
