// RJ before its checks (elliprj.rs): what a call does, and the calls of itself.
#![tactic(auto)]

mod plan;

ghost use Rattle.std.specs.Prelude.{◌≤◌, ◌≡◌};
ghost use Rattle.rj_calls.specs.Run.{plan_of, rj_run, rj_unchecked};

use crate::plan::{Plan, planned};
use carlson::answer::Answer;
use carlson_arguments::rescaling::{rescales4, scale4};
use elliprd::over_scale;
use refusals::Refusal;
use rj_negative::carried;
use rj_positive::positive::positive;

// Document 01, Rounds: at most four calls deep, the first included.
const ALLOWANCE: u32 = 4;

// A call with so many left, itself included. The allowance falls with each call of itself; at four at most no count wraps.
fn call(x: f64, y: f64, z: f64, p: f64, left: u32) -> Answer
    requires { left ≤ 4 }
    ensures { result ≡ rj_run left (plan_of x y z p) }
{
    if left == 0 {
        return Err(Refusal::TooDeep);
    }
    let plan = planned(x, y, z, p);
    match plan {
        Plan::Done(a) => a,
        Plan::Rescale(c) => over_scale(call(c.x, c.y, c.z, c.p, left - 1), c.scale),
        Plan::Reduce(r) => carried(r, call(r.x, r.y, r.z, r.p, left - 1)),
    }
}

// The inner part: any four f64s, any f64 back with its rounds, or no. 9 or 10. Where `positive` answers at once, no plan is made,
// which would hold a copy of that answer.
pub fn elliprj_unchecked(x: f64, y: f64, z: f64, p: f64) -> Answer
    ensures { result ≡ rj_unchecked x y z p }
{
    if p <= 0.0 {
        return call(x, y, z, p, ALLOWANCE);
    }
    if rescales4(x, y, z, p, scale4(x, y, z, p)) {
        return call(x, y, z, p, ALLOWANCE);
    }
    positive(x, y, z, p)
}
