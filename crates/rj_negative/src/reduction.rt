// RJ for p below zero: the Cauchy principal value, by an RJ at another p (DLMF 19.20.14). The arguments rise.
ghost use Rattle.std.specs.Prelude.{◌≡◌};
ghost use Rattle.rj_negative.specs.Reduction.{reduce_of, reduced_rc, reduced_value, wrapped_found, wrapped_answer};

use carlson::answer::{Answer, Found, both_ways, reduction};
use elliprc::elliprc_unchecked;
use elliprf::elliprf_unchecked;
use root::sqrt;

// The arguments of the inner call, and q = -p of the outer one.
#[derive(Clone, Copy)]
pub struct Reduced {
    pub x: f64,
    pub y: f64,
    pub z: f64,
    pub p: f64,
    pub q: f64,
}

pub fn reduce(x: f64, y: f64, z: f64, q: f64) -> Reduced
    ensures { result ≡ reduce_of x y z q }
{
    Reduced {
        x,
        y,
        z,
        p: (z * (x + y + q) - x * y) / (z + q),
        q,
    }
}

// RC at the reduction's two products.
fn rc_of(r: Reduced) -> Found
    ensures { result ≡ reduced_rc r }
{
    let pq = r.p * r.q;
    elliprc_unchecked(r.x * r.y + pq, pq)
}

// From the three values: that of RJ at the new p, of RF, and of RC.
fn value_of(r: Reduced, rj: f64, rf: f64, rc: f64) -> f64
    ensures { result ≡ reduced_value r rj rf rc }
{
    let xy = r.x * r.y;
    let both = xy + r.p * r.q;
    let first = (r.p - r.z) * rj - 3.0 * rf;
    (first + 3.0 * sqrt(xy * r.z / both) * rc) / (r.z + r.q)
}

fn together(r: Reduced, rj: Found, rf: Found, rc: Found) -> Found
    ensures { result ≡ wrapped_found r rj rf rc }
{
    let way = both_ways(both_ways(rj.way, rf.way), rc.way);
    reduction(value_of(r, rj.value, rf.value, rc.value), way)
}

// What the inner call answered, carried back. The contract is that of any inner answer, whose counts might wrap; RJ's are few.
pub fn carried(r: Reduced, inner: Answer) -> Answer
    ensures { result ≡ wrapped_answer r inner }
{
    match inner {
        Ok(rj) => Ok(together(r, rj, elliprf_unchecked(r.x, r.y, r.z), rc_of(r))),
        Err(n) => Err(n),
    }
}
