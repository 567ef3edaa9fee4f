// A call to the bench profile's answer (document 02, 2026-14): what the profile's entry of that name answers.
#![tactic(auto)]

ghost use Rattle.std.specs.Prelude.{◌≡◌};
ghost use Rattle.profile_answers.specs.ProfileAnswers.{profile_of};

use binary64::join;
use calls::Call;
use carlson::answer::Answer;
use cel::cel;
use profile::{profile_rc, profile_rd, profile_rf, profile_rg, profile_rj};

// The profile's entry of the call's name, at the f64s of its patterns. cel is no call of the profile: nothing asks it here.
pub fn profile_of(call: Call) -> Answer
    ensures { result ≡ profile_of call }
{
    match call {
        Call::Rc(x, y) => profile_rc(join(x), join(y)),
        Call::Rf(x, y, z) => profile_rf(join(x), join(y), join(z)),
        Call::Rd(x, y, z) => profile_rd(join(x), join(y), join(z)),
        Call::Rg(x, y, z) => profile_rg(join(x), join(y), join(z)),
        Call::Rj(x, y, z, p) => profile_rj(join(x), join(y), join(z), join(p)),
        Call::Cel(kc, p, a, b) => cel(join(kc), join(p), join(a), join(b)),
    }
}
