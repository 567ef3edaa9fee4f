// cel's passes (Bulirsch's general complete elliptic integral): each brings m and kc nearer to one another.
ghost use Rattle.std.specs.Prelude.{◌≡◌};
ghost use Rattle.cel_passes.specs.Passes.{
  cel_above,
  cel_reduced,
  cel_below,
  cel_begin,
  cel_moved,
  cel_pass,
  cel_far,
  cel_with,
  cel_next,
  cel_value,
  cel_from,
  cel_steps,
};

use binary64::abs;
use carlson::answer::{Found, looped, not_a_number};
use carlson::constants::PI_2;
use root::{sqrt, sqrt_ahead};
use root_guess::{Ahead, nearly_twice, ready, unready};

// The cap on the passes, and the tolerance, 2 ^ -26 (document 02, 2026-09).
const CAP: u32 = 30;

const TOLERANCE: f64 = 1.4901161193847656e-8;

// Eight times as much: no answer rests on it.
const TOO_FAR: f64 = 1.1920928955078125e-7;

// The running quantities by the Rust's names; g is the m of before the pass.
#[derive(Clone, Copy)]
pub struct Running {
    pub kc: f64,
    pub e: f64,
    pub m: f64,
    pub g: f64,
    pub pp: f64,
    pub aa: f64,
    pub bb: f64,
}

// With the size of kc, for p above zero.
fn above(kc: f64, p: f64, a: f64, b: f64) -> Running
    ensures { result ≡ cel_above kc p a b }
{
    let pp = sqrt(p);
    Running {
        kc,
        e: kc,
        m: 1.0,
        g: 1.0,
        pp,
        aa: a,
        bb: b / pp,
    }
}

fn reduced(kc: f64, r: f64, g: f64, q: f64, a: f64, b: f64) -> Running
    ensures { result ≡ cel_reduced kc r g q a b }
{
    let aa = (a - b) / g;
    Running {
        kc,
        e: kc,
        m: 1.0,
        g: 1.0,
        pp: r,
        aa,
        bb: -q / (g * g * r) + aa * r,
    }
}

// For any other p, by a reduction to one above zero.
fn below(kc: f64, p: f64, a: f64, b: f64) -> Running
    ensures { result ≡ cel_below kc p a b }
{
    let f = kc * kc;
    let g = 1.0 - p;
    reduced(kc, sqrt((f - p) / g), g, (b - a * p) * (1.0 - f), a, b)
}

fn begin(kc: f64, p: f64, a: f64, b: f64) -> Running
    ensures { result ≡ cel_begin kc p a b }
{
    if p > 0.0 {
        return above(abs(kc), p, a, b);
    }
    below(abs(kc), p, a, b)
}

fn moved(s: Running, inv: f64) -> Running
    ensures { result ≡ cel_moved s inv }
{
    Running {
        kc: s.kc,
        e: s.e,
        m: s.kc + s.m,
        g: s.m,
        pp: s.e * inv + s.pp,
        aa: s.bb * inv + s.aa,
        bb: 2.0 * (s.aa * (s.e * inv) + s.bb),
    }
}

fn pass(s: Running) -> Running
    ensures { result ≡ cel_pass s }
{
    moved(s, 1.0 / s.pp)
}

// Whether another pass is wanted.
fn far(s: Running) -> bool
    ensures { result ≡ cel_far s }
{
    abs(s.g - s.kc) > s.g * TOLERANCE
}

fn with_kc(s: Running, kc: f64) -> Running
    ensures { result ≡ cel_with s kc }
{
    Running {
        kc,
        e: kc * s.m,
        m: s.m,
        g: s.g,
        pp: s.pp,
        aa: s.aa,
        bb: s.bb,
    }
}

// Another pass, with the next kc. Its root was made ready before e was there.
fn next(s: Running, k: Ahead) -> Running
    ensures { result ≡ cel_next s }
{
    pass(with_kc(s, 2.0 * sqrt_ahead(s.e, k)))
}

// For the root after that, whose number is the next kc times m. None will be wanted where the next pass brings kc as near to m as
// the tolerance asks: its distance is some d * d / (4 * g). To say so here is for the processor, which so learns a pass ahead how
// the loop will end, and has begun what follows by then.
fn ready_next(s: Running, k: Ahead) -> Ahead {
    let d = s.g - s.kc;
    if d * d > s.g * s.g * TOO_FAR {
        return ready(nearly_twice(s.e, k) * s.m);
    }
    unready()
}

fn value_of(s: Running) -> f64
    ensures { result ≡ cel_value s }
{
    PI_2 * (s.aa * s.m + s.bb) / (s.m * (s.m + s.pp))
}

// From the first pass on, of which n more were begun. (No `for`: it would have to ask again behind its end whether it is far.)
fn from(first: Running) -> Found
    ensures { result ≡ cel_from first }
{
    let mut at = first;
    let mut n: u32 = 0;
    let mut k = ready(at.e);
    loop {
        if far(at) {
            if n == CAP - 1 {
                break looped(not_a_number(), n + 1);
            }
            let later = ready_next(at, k);
            at = next(at, k);
            k = later;
            n += 1;
        } else {
            break looped(value_of(at), n + 1);
        }
    }
}

pub fn steps(kc: f64, p: f64, a: f64, b: f64) -> Found
    ensures { result ≡ cel_steps kc p a b }
{
    from(pass(begin(kc, p, a, b)))
}
