// How a decimal is laid out.
ghost use Rattle.std.specs.Prelude.{◌≡◌, ◌+◌, ◌-◌, ◌*◌, ◌^◌, ◌≤◌, ◌<◌};
ghost use Rattle.decimal_text.specs.Shape.{whole_shape, point_shape, power_shape, shape_of};

use fives::five;
use writing::width;

const ONES: u64 = 1200; // the power of ten 0

const WIDEST: u64 = 1217; // up to here a whole number is written out

const LEAST: u64 = 1195; // and past here a number below 1

// A whole part, so many places after a point and the number that they are, and a power of ten, below 1 or above.
#[derive(Clone, Copy)]
pub struct Shape {
    pub whole: u64,
    pub places: u64,
    pub part: u64,
    pub below: bool,
    pub power: u64,
}

fn ten(k: u64) -> u64
    requires { k < 20 }
    ensures { result ≡ 10 ^ k }
{
    five(k) << k
}

fn whole(d: u64, t: u64) -> Shape
    requires { (1200 ≤ t) × (t < 1217) × (d * 10 ^ (t - 1200) < 2 ^ 64) }
    ensures { result ≡ whole_shape d t }
{
    Shape {
        whole: d * ten(t - ONES),
        places: 0,
        part: 0,
        below: false,
        power: 0,
    }
}

// From 10 ^ 17 on a power does not go into d; past 10 ^ 19 no word holds it.
fn point(d: u64, k: u64) -> Shape
    requires { d < 10 ^ 17 }
    ensures { result ≡ point_shape d k }
{
    if 17 <= k {
        return Shape {
            whole: 0,
            places: k,
            part: d,
            below: false,
            power: 0,
        };
    }
    let p = ten(k);
    Shape {
        whole: d / p,
        places: k,
        part: d % p,
        below: false,
        power: 0,
    }
}

// How far a power is from 10 ^ 0, in either direction.
fn apart(t: u64) -> u64
    ensures { result ≡ (t - 1200) + (1200 - t) }
{
    if t < ONES {
        return ONES - t;
    }
    t - ONES
}

fn power(d: u64, k: u64, t: u64) -> Shape
    requires { (k < 20) × (t < 2000) }
    ensures { result ≡ power_shape d k t }
{
    let p = ten(k);
    Shape {
        whole: d / p,
        places: k,
        part: d % p,
        below: k + t < ONES,
        power: apart(k + t),
    }
}

// d * 10 ^ (t - 1200), with up to 17 digits.
pub fn laid_out(d: u64, t: u64) -> Shape
    requires { (d < 10 ^ 17) × (t < 2000) }
    ensures { result ≡ shape_of d t }
{
    let n = width(d) as u64;
    if t < ONES {
        if LEAST < n + t {
            return point(d, ONES - t);
        }
        return power(d, n - 1, t);
    }
    if n + t <= WIDEST {
        return whole(d, t);
    }
    power(d, n - 1, t)
}
