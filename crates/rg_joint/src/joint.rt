// RG in general: RF and RD by one duplication, each left as soon as it is close.
ghost use Rattle.std.specs.Prelude.{◌≡◌, true};
ghost use Rattle.root.specs.Root.{root};
ghost use Rattle.root.specs.Together.{Numbers3, Rooted3};
ghost use Rattle.carlson.specs.Common.{lambda_with};
ghost use Rattle.rg_joint.specs.Joint.{
  rf_begun,
  rd_begun,
  joint_begun,
  rf_moved,
  rf_ended,
  rf_next,
  rd_moved,
  rd_ended,
  rd_next,
  joint_moved,
  joint_next,
  all_done,
  rf_rd_of,
  rg_value,
  joint_of,
  rg_joint,
};

use binary64::abs;
use carlson::answer::{Found, joint, not_a_number};
use carlson::common::{Lambda, lambda_with};
use root::together::numbers3;
use root::{certain, sqrt};
use root_guess::{by_row, row};

// The Rust's cap on its passes.
const CAP: u32 = 50;

// RF's share of a pass: its mean, distance and power of four, and its result once it is close.
#[derive(Clone, Copy)]
pub struct RfPart {
    pub an: f64,
    pub q: f64,
    pub fnval: f64,
    pub res: f64,
    pub done: bool,
}

// RD's share, with its sum.
#[derive(Clone, Copy)]
pub struct RdPart {
    pub an: f64,
    pub q: f64,
    pub fnval: f64,
    pub sum: f64,
    pub res: f64,
    pub done: bool,
}

// The running arguments and both shares.
#[derive(Clone, Copy)]
pub struct Joint {
    pub xn: f64,
    pub yn: f64,
    pub zn: f64,
    pub rf: RfPart,
    pub rd: RdPart,
}

// What both came to; NaN where one was not close when the cap was spent.
#[derive(Clone, Copy)]
pub struct RfRd {
    pub rf: f64,
    pub rd: f64,
    pub rounds: u32,
}

fn rf_begin(x: f64, y: f64, z: f64) -> RfPart
    ensures { result ≡ rf_begun x y z }
{
    let an = rf_duplicate::duplicate::mean_of(x, y, z);
    RfPart {
        an,
        q: rf_duplicate::duplicate::start_of(an, x, y, z),
        fnval: 1.0,
        res: not_a_number(),
        done: false,
    }
}

fn rd_begin(x: f64, y: f64, z: f64) -> RdPart
    ensures { result ≡ rd_begun x y z }
{
    let an = rd_duplicate::duplicate::mean_of(x, y, z);
    RdPart {
        an,
        q: rd_duplicate::duplicate::start_of(an, x, y, z),
        fnval: 1.0,
        sum: 0.0,
        res: not_a_number(),
        done: false,
    }
}

fn begin(x: f64, y: f64, z: f64) -> Joint
    ensures { result ≡ joint_begun x y z }
{
    let rf = rf_begin(x, y, z);
    let rd = rd_begin(x, y, z);
    Joint {
        xn: x,
        yn: y,
        zn: z,
        rf,
        rd,
    }
}

fn rf_moved(p: RfPart, lambda: f64) -> RfPart
    ensures { result ≡ rf_moved p lambda }
{
    RfPart {
        an: (p.an + lambda) / 4.0,
        q: p.q / 4.0,
        fnval: p.fnval * 4.0,
        res: p.res,
        done: p.done,
    }
}

fn rf_ended(p: RfPart, x: f64, y: f64, a0: f64) -> RfPart
    ensures { result ≡ rf_ended p x y a0 }
{
    let an = p.an;
    let q = p.q;
    let fnval = p.fnval;
    if q < abs(an) {
        return RfPart {
            an,
            q,
            fnval,
            res: rf_duplicate::duplicate::series(x, y, a0, an, fnval),
            done: true,
        };
    }
    p
}

fn rf_step(p: RfPart, lambda: f64, x: f64, y: f64, a0: f64) -> RfPart
    ensures { result ≡ rf_next p lambda x y a0 }
{
    let done = p.done;
    if done {
        return p;
    }
    rf_ended(rf_moved(p, lambda), x, y, a0)
}

fn rd_moved(p: RdPart, lambda: f64, rz: f64, zn: f64) -> RdPart
    ensures { result ≡ rd_moved p lambda rz zn }
{
    RdPart {
        an: (p.an + lambda) / 4.0,
        q: p.q / 4.0,
        fnval: p.fnval / 4.0,
        sum: p.sum + p.fnval / (rz * (zn + lambda)),
        res: p.res,
        done: p.done,
    }
}

fn rd_ended(p: RdPart, x: f64, y: f64, a0: f64) -> RdPart
    ensures { result ≡ rd_ended p x y a0 }
{
    let an = p.an;
    let q = p.q;
    let fnval = p.fnval;
    let sum = p.sum;
    if q < an {
        return RdPart {
            an,
            q,
            fnval,
            sum,
            res: rd_duplicate::duplicate::series(x, y, a0, an, fnval, sum),
            done: true,
        };
    }
    p
}

fn rd_step(p: RdPart, lambda: f64, rz: f64, zn: f64, x: f64, y: f64, a0: f64) -> RdPart
    ensures { result ≡ rd_next p lambda rz zn x y a0 }
{
    let done = p.done;
    if done {
        return p;
    }
    rd_ended(rd_moved(p, lambda, rz, zn), x, y, a0)
}

// One pass, with its lambda and the root of zn; x, y and the means are those of the start.
fn moved(s: Joint, l: Lambda, x: f64, y: f64, arf: f64, ard: f64) -> Joint
    ensures { result ≡ joint_moved s l x y arf ard }
{
    let lambda = l.lambda;
    let xn = s.xn;
    let yn = s.yn;
    let zn = s.zn;
    let p = s.rf;
    let q = s.rd;
    let rd = rd_step(q, lambda, l.rz, zn, x, y, ard);
    let rf = rf_step(p, lambda, x, y, arf);
    Joint {
        xn: (xn + lambda) / 4.0,
        yn: (yn + lambda) / 4.0,
        zn: (zn + lambda) / 4.0,
        rf,
        rd,
    }
}

// Whether the guesses are the roots. They are tested in one of three orders, to the same end: `rf_last` and `rd_last` foretell
// that RF or RD will be close after this pass, and the processor, which sees here which way is gone, has begun what follows by
// then.
fn told(a: u64, b: u64, c: u64, rx: f64, ry: f64, rz: f64, rf_last: bool, rd_last: bool) -> bool
    requires { Numbers3 rx ry rz }
    ensures { result ≡ true → Rooted3 a b c rx ry rz }
{
    if rf_last {
        return certain(c, f64::to_bits(rz))
            && certain(b, f64::to_bits(ry))
            && certain(a, f64::to_bits(rx));
    }
    if rd_last {
        return certain(b, f64::to_bits(ry))
            && certain(a, f64::to_bits(rx))
            && certain(c, f64::to_bits(rz));
    }
    certain(a, f64::to_bits(rx)) && certain(b, f64::to_bits(ry)) && certain(c, f64::to_bits(rz))
}

// The guesses first and then the tests, so that the processor makes the guesses side by side. This stands in each entry, since
// LLVM compiles a function of this size into a loop only where it is called once.
fn lambda_at(x: f64, y: f64, z: f64, rf_last: bool, rd_last: bool) -> Lambda
    ensures { result ≡ lambda_with (root x) (root y) (root z) }
{
    if numbers3(x, y, z) {
        let a = f64::to_bits(x);
        let b = f64::to_bits(y);
        let c = f64::to_bits(z);
        let rx = by_row(a, row(a));
        let ry = by_row(b, row(b));
        let rz = by_row(c, row(c));
        if numbers3(rx, ry, rz) {
            if told(a, b, c, rx, ry, rz, rf_last, rd_last) {
                return lambda_with(rx, ry, rz);
            }
        }
    }
    lambda_with(sqrt(x), sqrt(y), sqrt(z))
}

fn step(s: Joint, x: f64, y: f64, arf: f64, ard: f64) -> Joint
    ensures { result ≡ joint_next x y arf ard s }
{
    let p = s.rf;
    let q = s.rd;
    let l = lambda_at(s.xn, s.yn, s.zn, p.q * 0.25 < p.an, q.q * 0.25 < q.an);
    moved(s, l, x, y, arf, ard)
}

#[tactic(auto, unfolding(crate::specs::Joint::all_done))]
fn all_done(s: Joint) -> bool
    ensures { result ≡ all_done s }
{
    let p = s.rf;
    let q = s.rd;
    p.done && q.done
}

fn result(s: Joint, rounds: u32) -> RfRd
    ensures { result ≡ rf_rd_of s rounds }
{
    let p = s.rf;
    let q = s.rd;
    RfRd {
        rf: p.res,
        rd: q.res,
        rounds,
    }
}

fn elliprf_rd_unchecked(x: f64, y: f64, z: f64) -> RfRd
    ensures { result ≡ joint_of x y z }
{
    let arf = rf_duplicate::duplicate::mean_of(x, y, z);
    let ard = rd_duplicate::duplicate::mean_of(x, y, z);
    let mut at = begin(x, y, z);
    'passes: {
        for n in 0..CAP {
            at = step(at, x, y, arf, ard);
            if all_done(at) {
                break 'passes result(at, n + 1);
            }
        }
        result(at, CAP)
    }
}

fn value_of(x: f64, y: f64, z: f64, rf: f64, rd: f64) -> f64
    ensures { result ≡ rg_value x y z rf rd }
{
    (z * rf - (x - z) * (y - z) * rd / 3.0 + sqrt(x * y / z)) / 2.0
}

pub fn joined(x: f64, y: f64, z: f64) -> Found
    ensures { result ≡ rg_joint x y z }
{
    let r = elliprf_rd_unchecked(x, y, z);
    joint(value_of(x, y, z, r.rf, r.rd), r.rounds)
}
