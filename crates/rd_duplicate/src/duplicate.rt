// RD's duplication (DLMF 19.26.20, 19.36.2), with its sum of closed terms.
ghost use Rattle.std.specs.Prelude.{◌-◌, ◌≤◌, ◌≡◌, true, false, IfSome};
ghost use Rattle.root.specs.Root.{root};
ghost use Rattle.root.specs.Together.{Numbers3, Rooted3};
ghost use Rattle.carlson.specs.Common.{lambda_with};
ghost use Rattle.carlson.specs.Loop.{capped};
ghost use Rattle.rd_duplicate.specs.Duplicate.{
  rd_cap,
  rd_found,
  rd_spent,
  rd_mean,
  rd_start,
  rd_begin,
  rd_moved,
  rd_step,
  rd_close,
  rd_correction,
  rd_factor,
  rd_series,
  rd_duplication,
};

use binary64::max;
use carlson::answer::{Found, duplication, not_a_number};
use carlson::common::{Lambda, lambda_with, third_kind};
use power::pow_neg_3_2;
use root::together::numbers3;
use root::{certain, sqrt};
use root_guess::{by_row, row};

// The Rust's cap on its passes.
const CAP: u32 = 50;

// (2 ^ -54) ^ (-1 / 8), the nearest f64.
const START: f64 = 107.63474115247546;

// The running mean, arguments, distance, power of four and sum of one pass.
#[derive(Clone, Copy)]
pub struct Round {
    pub an: f64,
    pub xn: f64,
    pub yn: f64,
    pub zn: f64,
    pub q: f64,
    pub fnval: f64,
    pub sum: f64,
}

pub fn mean_of(x: f64, y: f64, z: f64) -> f64
    ensures { result ≡ rd_mean x y z }
{
    (x + y + 3.0 * z) / 5.0
}

// The largest difference is of signed ones, as the Rust has it.
pub fn start_of(an: f64, x: f64, y: f64, z: f64) -> f64
    ensures { result ≡ rd_start an x y z }
{
    START * max(max(an - x, an - y), an - z) * 1.2
}

fn begin(x: f64, y: f64, z: f64) -> Round
    ensures { result ≡ rd_begin x y z }
{
    let an = mean_of(x, y, z);
    Round {
        an,
        xn: x,
        yn: y,
        zn: z,
        q: start_of(an, x, y, z),
        fnval: 1.0,
        sum: 0.0,
    }
}

// One pass, with its lambda and the root of zn.
fn moved(s: Round, l: Lambda) -> Round
    ensures { result ≡ rd_moved s l }
{
    Round {
        an: (s.an + l.lambda) / 4.0,
        xn: (s.xn + l.lambda) / 4.0,
        yn: (s.yn + l.lambda) / 4.0,
        zn: (s.zn + l.lambda) / 4.0,
        q: s.q / 4.0,
        fnval: s.fnval / 4.0,
        sum: s.sum + s.fnval / (l.rz * (s.zn + l.lambda)),
    }
}

// Whether the guesses are the roots. They are tested in the one order or the other, to the same end: `last` foretells that the
// loop will end with this pass, and the processor, which sees here which way is gone, has begun what follows by then.
fn told(a: u64, b: u64, c: u64, rx: f64, ry: f64, rz: f64, last: bool) -> bool
    requires { Numbers3 rx ry rz }
    ensures { result ≡ true → Rooted3 a b c rx ry rz }
{
    if last {
        return certain(c, f64::to_bits(rz))
            && certain(b, f64::to_bits(ry))
            && certain(a, f64::to_bits(rx));
    }
    certain(a, f64::to_bits(rx)) && certain(b, f64::to_bits(ry)) && certain(c, f64::to_bits(rz))
}

// The guesses first and then the tests, so that the processor makes the guesses side by side. This stands in each entry, since
// LLVM compiles a function of this size into a loop only where it is called once.
fn tried(x: f64, y: f64, z: f64, last: bool) -> Option<Lambda>
    ensures { IfSome result (λ l. l ≡ lambda_with (root x) (root y) (root z)) }
{
    if numbers3(x, y, z) {
        let a = f64::to_bits(x);
        let b = f64::to_bits(y);
        let c = f64::to_bits(z);
        let rx = by_row(a, row(a));
        let ry = by_row(b, row(b));
        let rz = by_row(c, row(c));
        if numbers3(rx, ry, rz) {
            if told(a, b, c, rx, ry, rz, last) {
                return Some(lambda_with(rx, ry, rz));
            }
        }
    }
    None
}

fn step(s: Round) -> Round
    ensures { result ≡ rd_step s }
{
    moved(s, lambda_with(sqrt(s.xn), sqrt(s.yn), sqrt(s.zn)))
}

fn close(s: Round) -> bool
    ensures { result ≡ rd_close s }
{
    s.q < s.an
}

fn correction(fnval: f64, a0: f64, x: f64, an: f64) -> f64
    ensures { result ≡ rd_correction fnval a0 x an }
{
    fnval * (a0 - x) / an
}

// The series, of the corrections x and y.
fn factor(x: f64, y: f64) -> f64
    ensures { result ≡ rd_factor x y }
{
    let z = -(x + y) / 3.0;
    let xyz = x * y * z;
    let z2 = z * z;
    let z3 = z2 * z;
    third_kind(
        x * y - 6.0 * z2,
        3.0 * xyz - 8.0 * z3,
        3.0 * (xyz - z3) * z,
        xyz * z2,
    )
}

// Of a state that is close: with the mean a0 and the arguments x and y of the start.
pub fn series(x: f64, y: f64, a0: f64, an: f64, fnval: f64, sum: f64) -> f64
    ensures { result ≡ rd_series x y a0 an fnval sum }
{
    let f = factor(correction(fnval, a0, x, an), correction(fnval, a0, y, an));
    fnval * pow_neg_3_2(an) * f + 3.0 * sum
}

// From a state on, after so many passes.
fn onward(x: f64, y: f64, a0: f64, s: Round, from: u32) -> Found
    requires { from ≤ rd_cap }
    ensures { result ≡ capped rd_step rd_close (rd_found x y a0) rd_spent (rd_cap - from) false s from }
{
    let mut at = s;
    'passes: {
        for m in from..CAP {
            at = step(at);
            if close(at) {
                break 'passes duplication(series(x, y, a0, at.an, at.fnval, at.sum), m + 1);
            }
        }
        duplication(not_a_number(), CAP)
    }
}

// While the roots are told at once; the rest of the passes is made out of line, root by root.
pub fn duplicated(x: f64, y: f64, z: f64) -> Found
    ensures { result ≡ rd_duplication x y z }
{
    let mut at = begin(x, y, z);
    let a0 = at.an;
    'passes: {
        for n in 0..CAP {
            let Some(by) = tried(at.xn, at.yn, at.zn, at.q * 0.25 < at.an) else {
                break 'passes onward(x, y, a0, at, n);
            };
            at = moved(at, by);
            if close(at) {
                break 'passes duplication(series(x, y, a0, at.an, at.fnval, at.sum), n + 1);
            }
        }
        duplication(not_a_number(), CAP)
    }
}
