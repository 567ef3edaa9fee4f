// What a call of RJ does, before it calls itself.
ghost use Rattle.std.specs.Prelude.{◌≡◌};
ghost use Rattle.rj_calls.specs.Run.{plan_unscaled, plan_scaled, plan_near, plan_of};

use carlson::answer::{Answer, taylor};
use carlson_arguments::rescaling::{rescales4, scale4};
use rj_near_zero::elliprj_pv_near_zero;
use rj_negative::{Reduced, reduce};
use rj_positive::positive::positive;
use sorting::{Triple, rising};

// The rescaled arguments, and the scale.
#[derive(Clone, Copy)]
pub struct Rescaled {
    pub x: f64,
    pub y: f64,
    pub z: f64,
    pub p: f64,
    pub scale: f64,
}

// It is done, or calls itself at rescaled arguments, or at the reduction's.
#[derive(Clone, Copy)]
pub enum Plan {
    Done(Answer),
    Rescale(Rescaled),
    Reduce(Reduced),
}

fn unscaled(x: f64, y: f64, z: f64, p: f64) -> Plan
    ensures { result ≡ plan_unscaled x y z p }
{
    if p <= 0.0 {
        return Plan::Reduce(reduce(x, y, z, -p));
    }
    Plan::Done(positive(x, y, z, p))
}

fn scaled(x: f64, y: f64, z: f64, p: f64) -> Plan
    ensures { result ≡ plan_scaled x y z p }
{
    let scale = scale4(x, y, z, p);
    if rescales4(x, y, z, p, scale) {
        return Plan::Rescale(Rescaled {
            x: x / scale,
            y: y / scale,
            z: z / scale,
            p: p / scale,
            scale,
        });
    }
    unscaled(x, y, z, p)
}

fn unless_near(near: Option<f64>, x: f64, y: f64, z: f64, p: f64) -> Plan
    ensures { result ≡ plan_near near x y z p }
{
    match near {
        Some(value) => Plan::Done(Ok(taylor(value))),
        None => scaled(x, y, z, p),
    }
}

// p's sign is looked at here and in `unscaled`, as in the Rust.
pub fn planned(x: f64, y: f64, z: f64, p: f64) -> Plan
    ensures { result ≡ plan_of x y z p }
{
    if p <= 0.0 {
        let t = rising(Triple { x, y, z });
        let a = t.x;
        let b = t.y;
        let c = t.z;
        return unless_near(elliprj_pv_near_zero(a, b, c, -p), a, b, c, p);
    }
    scaled(x, y, z, p)
}
