// RF's duplication (DLMF 19.26.18, 19.36.1): each pass brings the arguments nearer to their mean, until the series serves.
ghost use Rattle.std.specs.Prelude.{◌-◌, ◌≤◌, ◌≡◌, true, false, IfSome};
ghost use Rattle.root.specs.Root.{root};
ghost use Rattle.root.specs.Together.{Numbers3, Rooted3};
ghost use Rattle.carlson.specs.Common.{lambda_with};
ghost use Rattle.carlson.specs.Loop.{capped};
ghost use Rattle.rf_duplicate.specs.Duplicate.{
  rf_cap,
  rf_found,
  rf_spent,
  mean_of,
  rf_start,
  rf_begin,
  rf_moved,
  rf_step,
  rf_close,
  rf_correction,
  rf_factor,
  rf_series,
  rf_duplication,
};

use binary64::{abs, max};
use carlson::answer::{Found, duplication, not_a_number};
use carlson::common::{Lambda, lambda_with};
use root::together::numbers3;
use root::{certain, sqrt};
use root_guess::{by_row, row};

// The Rust's cap on its passes.
const CAP: u32 = 11;

// (3 * 2 ^ -52) ^ (-1 / 8), the nearest f64.
const START: f64 = 78.8959690786408;

// The running mean, arguments, distance and power of four of one pass.
#[derive(Clone, Copy)]
pub struct Round {
    pub an: f64,
    pub xn: f64,
    pub yn: f64,
    pub zn: f64,
    pub q: f64,
    pub fnval: f64,
}

pub fn mean_of(x: f64, y: f64, z: f64) -> f64
    ensures { result ≡ mean_of x y z }
{
    (x + y + z) / 3.0
}

pub fn start_of(an: f64, x: f64, y: f64, z: f64) -> f64
    ensures { result ≡ rf_start an x y z }
{
    START * max(max(max(abs(an), abs(an - x)), abs(an - y)), abs(an - z))
}

fn begin(x: f64, y: f64, z: f64) -> Round
    ensures { result ≡ rf_begin x y z }
{
    let an = mean_of(x, y, z);
    Round {
        an,
        xn: x,
        yn: y,
        zn: z,
        q: start_of(an, x, y, z),
        fnval: 1.0,
    }
}

// One pass, with its lambda.
fn moved(s: Round, l: Lambda) -> Round
    ensures { result ≡ rf_moved s l }
{
    Round {
        an: (s.an + l.lambda) / 4.0,
        xn: (s.xn + l.lambda) / 4.0,
        yn: (s.yn + l.lambda) / 4.0,
        zn: (s.zn + l.lambda) / 4.0,
        q: s.q / 4.0,
        fnval: s.fnval * 4.0,
    }
}

// Whether the guesses are the roots. They are tested in the one order or the other, to the same end: `last` foretells that the
// loop will end with this pass, and the processor, which sees here which way is gone, has begun what follows by then.
fn told(a: u64, b: u64, c: u64, rx: f64, ry: f64, rz: f64, last: bool) -> bool
    requires { Numbers3 rx ry rz }
    ensures { result ≡ true → Rooted3 a b c rx ry rz }
{
    if last {
        return certain(c, f64::to_bits(rz))
            && certain(b, f64::to_bits(ry))
            && certain(a, f64::to_bits(rx));
    }
    certain(a, f64::to_bits(rx)) && certain(b, f64::to_bits(ry)) && certain(c, f64::to_bits(rz))
}

// The guesses first and then the tests, so that the processor makes the guesses side by side. This stands in each entry, since
// LLVM compiles a function of this size into a loop only where it is called once.
fn tried(x: f64, y: f64, z: f64, last: bool) -> Option<Lambda>
    ensures { IfSome result (λ l. l ≡ lambda_with (root x) (root y) (root z)) }
{
    if numbers3(x, y, z) {
        let a = f64::to_bits(x);
        let b = f64::to_bits(y);
        let c = f64::to_bits(z);
        let rx = by_row(a, row(a));
        let ry = by_row(b, row(b));
        let rz = by_row(c, row(c));
        if numbers3(rx, ry, rz) {
            if told(a, b, c, rx, ry, rz, last) {
                return Some(lambda_with(rx, ry, rz));
            }
        }
    }
    None
}

fn step(s: Round) -> Round
    ensures { result ≡ rf_step s }
{
    moved(s, lambda_with(sqrt(s.xn), sqrt(s.yn), sqrt(s.zn)))
}

fn close(s: Round) -> bool
    ensures { result ≡ rf_close s }
{
    s.q < abs(s.an)
}

fn correction(a0: f64, x: f64, an: f64, fnval: f64) -> f64
    ensures { result ≡ rf_correction a0 x an fnval }
{
    (a0 - x) / (an * fnval)
}

fn factor(x: f64, y: f64) -> f64
    ensures { result ≡ rf_factor x y }
{
    let z = -x - y;
    let e2 = x * y - z * z;
    let e3 = x * y * z;
    1.0 + e3 * (1.0 / 14.0 + 3.0 * e3 / 104.0)
        + e2 * (-0.1 + e2 / 24.0 - (3.0 * e3) / 44.0 - 5.0 * e2 * e2 / 208.0 + e2 * e3 / 16.0)
}

// Of a state that is close: with the mean a0 and the arguments x and y of the start.
pub fn series(x: f64, y: f64, a0: f64, an: f64, fnval: f64) -> f64
    ensures { result ≡ rf_series x y a0 an fnval }
{
    factor(correction(a0, x, an, fnval), correction(a0, y, an, fnval)) / sqrt(an)
}

// From a state on, after so many passes.
fn onward(x: f64, y: f64, a0: f64, s: Round, from: u32) -> Found
    requires { from ≤ rf_cap }
    ensures { result ≡ capped rf_step rf_close (rf_found x y a0) rf_spent (rf_cap - from) false s from }
{
    let mut at = s;
    'passes: {
        for m in from..CAP {
            at = step(at);
            if close(at) {
                break 'passes duplication(series(x, y, a0, at.an, at.fnval), m + 1);
            }
        }
        duplication(not_a_number(), CAP)
    }
}

// While the roots are told at once; the rest of the passes is made out of line, root by root.
pub fn duplicated(x: f64, y: f64, z: f64) -> Found
    ensures { result ≡ rf_duplication x y z }
{
    let mut at = begin(x, y, z);
    let a0 = at.an;
    'passes: {
        for n in 0..CAP {
            let Some(by) = tried(at.xn, at.yn, at.zn, at.q * 0.25 < at.an) else {
                break 'passes onward(x, y, a0, at, n);
            };
            at = moved(at, by);
            if close(at) {
                break 'passes duplication(series(x, y, a0, at.an, at.fnval), n + 1);
            }
        }
        duplication(not_a_number(), CAP)
    }
}
