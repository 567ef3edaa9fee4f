// RJ's duplication for p above zero (DLMF 19.26.21, 19.36.2), with its sum of RC values.
ghost use Rattle.std.specs.Prelude.{◌≡◌};
ghost use Rattle.root.specs.Root.{root};
ghost use Rattle.rj_positive.specs.Duplicate.{
  rj_mean,
  rj_start,
  rj_begin,
  rj_denominator,
  share_of,
  rj_ratio,
  rj_moved,
  rj_with,
  rj_step,
  rj_close,
  rj_correction,
  rj_factor,
  rj_series,
  rj_duplication,
};

use binary64::{abs, max};
use carlson::answer::{Found, duplication_over, not_a_number};
use carlson::common::{Lambda, lambda_with, third_kind};
use power::pow_neg_3_2;
use rj_term::term::{Roots, rescalings_with, term};
use root::together::numbers4;
use root::{certain, sqrt};
use root_guess::{by_row, row};

// The Rust's cap on its passes.
const CAP: u32 = 100;

// (2 ^ -52 / 5) ^ (-1 / 8), the quotient rounded first, the nearest f64.
const START: f64 = 110.67925377307274;

const MIN_POSITIVE: f64 = 2.2250738585072014e-308; // the least normal f64, 2 ^ -1022

// The running mean and arguments, the product of the differences, the power of four, the sum of one pass, and how often RC
// rescaled on the way to it.
#[derive(Clone, Copy)]
pub struct Round {
    pub an: f64,
    pub xn: f64,
    pub yn: f64,
    pub zn: f64,
    pub pn: f64,
    pub delta: f64,
    pub fmn: f64,
    pub sum: f64,
    pub rescalings: u32,
}

fn mean_of(x: f64, y: f64, z: f64, p: f64) -> f64
    ensures { result ≡ rj_mean x y z p }
{
    (x + y + z + 2.0 * p) / 5.0
}

fn start_of(an: f64, x: f64, y: f64, z: f64, p: f64) -> f64
    ensures { result ≡ rj_start an x y z p }
{
    START * max(max(max(abs(an - x), abs(an - y)), abs(an - z)), abs(an - p))
}

fn begin(x: f64, y: f64, z: f64, p: f64) -> Round
    ensures { result ≡ rj_begin x y z p }
{
    Round {
        an: mean_of(x, y, z, p),
        xn: x,
        yn: y,
        zn: z,
        pn: p,
        delta: (p - x) * (p - y) * (p - z),
        fmn: 1.0,
        sum: 0.0,
        rescalings: 0,
    }
}

fn denominator(r: Roots) -> f64
    ensures { result ≡ rj_denominator r }
{
    (r.p + r.x) * (r.p + r.y) * (r.p + r.z)
}

// One difference over the square of a sum of roots.
fn share(pn: f64, xn: f64, s: f64) -> f64
    ensures { result ≡ share_of pn xn s }
{
    (pn - xn) / s / s
}

// Where the square of the denominator is subnormal, each factor is divided by itself.
fn ratio(s: Round, r: Roots, dn: f64) -> f64
    ensures { result ≡ rj_ratio s r dn }
{
    let dn2 = dn * dn;
    if dn2 >= MIN_POSITIVE {
        return s.delta / dn2;
    }
    share(s.pn, s.xn, r.p + r.x) * share(s.pn, s.yn, r.p + r.y) * share(s.pn, s.zn, r.p + r.z)
}

fn moved(s: Round, l: Lambda, added: f64, rescalings: u32) -> Round
    ensures { result ≡ rj_moved s l added rescalings }
{
    Round {
        an: (s.an + l.lambda) / 4.0,
        xn: (s.xn + l.lambda) / 4.0,
        yn: (s.yn + l.lambda) / 4.0,
        zn: (s.zn + l.lambda) / 4.0,
        pn: (s.pn + l.lambda) / 4.0,
        delta: s.delta / 64.0,
        fmn: s.fmn / 4.0,
        sum: s.sum + added,
        rescalings,
    }
}

// One pass, with the roots.
fn with_roots(s: Round, r: Roots) -> Round
    ensures { result ≡ rj_with s r }
{
    let dn = denominator(r);
    let rc = term(s.pn, r, dn, ratio(s, r, dn));
    let added = s.fmn / dn * rc.value;
    moved(
        s,
        lambda_with(r.x, r.y, r.z),
        added,
        rescalings_with(s.rescalings, rc),
    )
}

// The guesses first and then the tests, so that the processor makes the guesses side by side.
fn roots_at(x: f64, y: f64, z: f64, p: f64) -> Roots
    ensures { (result.x ≡ root x) × ((result.y ≡ root y) × ((result.z ≡ root z) × (result.p ≡ root p))) }
{
    if numbers4(x, y, z, p) {
        let a = f64::to_bits(x);
        let b = f64::to_bits(y);
        let c = f64::to_bits(z);
        let d = f64::to_bits(p);
        let rx = by_row(a, row(a));
        let ry = by_row(b, row(b));
        let rz = by_row(c, row(c));
        let rp = by_row(d, row(d));
        if numbers4(rx, ry, rz, rp) {
            if certain(a, f64::to_bits(rx))
                && certain(b, f64::to_bits(ry))
                && certain(c, f64::to_bits(rz))
                && certain(d, f64::to_bits(rp))
            {
                return Roots {
                    x: rx,
                    y: ry,
                    z: rz,
                    p: rp,
                };
            }
        }
    }
    Roots {
        x: sqrt(x),
        y: sqrt(y),
        z: sqrt(z),
        p: sqrt(p),
    }
}

fn step(s: Round) -> Round
    ensures { result ≡ rj_step s }
{
    with_roots(s, roots_at(s.xn, s.yn, s.zn, s.pn))
}

fn close(s: Round, q: f64) -> bool
    ensures { result ≡ rj_close q s }
{
    s.fmn * q < s.an
}

fn correction(fmn: f64, a0: f64, x: f64, an: f64) -> f64
    ensures { result ≡ rj_correction fmn a0 x an }
{
    fmn * (a0 - x) / an
}

// The series, of the corrections x, y and z.
fn factor(x: f64, y: f64, z: f64) -> f64
    ensures { result ≡ rj_factor x y z }
{
    let p = (-x - y - z) / 2.0;
    let xyz = x * y * z;
    let p2 = p * p;
    let p3 = p2 * p;
    let e2 = x * y + x * z + y * z - 3.0 * p2;
    let e3 = xyz + 2.0 * e2 * p + 4.0 * p3;
    let e4 = (2.0 * xyz + e2 * p + 3.0 * p3) * p;
    third_kind(e2, e3, e4, xyz * p2)
}

// Of a state that is close: with the mean a0 and the arguments of the start.
fn series(x: f64, y: f64, z: f64, a0: f64, s: Round) -> f64
    ensures { result ≡ rj_series x y z a0 s }
{
    let an = s.an;
    let fmn = s.fmn;
    let f = factor(
        correction(fmn, a0, x, an),
        correction(fmn, a0, y, an),
        correction(fmn, a0, z, an),
    );
    fmn * pow_neg_3_2(an) * f + 6.0 * s.sum
}

pub fn duplicated(x: f64, y: f64, z: f64, p: f64) -> Found
    ensures { result ≡ rj_duplication x y z p }
{
    let mut at = begin(x, y, z, p);
    let a0 = at.an;
    let q = start_of(a0, x, y, z, p);
    'passes: {
        for n in 0..CAP {
            at = step(at);
            if close(at, q) {
                break 'passes duplication_over(series(x, y, z, a0, at), n + 1, at.rescalings);
            }
        }
        duplication_over(not_a_number(), CAP, at.rescalings)
    }
}
