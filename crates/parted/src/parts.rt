// A fraction over a power of two as its whole part and what is left.
ghost use Rattle.std.specs.Prelude.{◌≡◌, ◌*◌, ◌^◌, ◌<◌, ◌≤◌};
ghost use Rattle.parted.specs.Parts.{part_of, parts_of, step_of, rounded_of};

// The part of one more: 0 none, 1 less than half of it, 2 the half, 3 more.
#[derive(Clone, Copy)]
pub struct Parts {
    pub whole: u64,
    pub part: u64,
}

// Which part of 2 * half the rest r is.
fn part(r: u64, half: u64) -> u64
    ensures { result ≡ part_of r (half * 2) }
{
    if r == 0 {
        return 0;
    }
    if r < half {
        return 1;
    }
    if r == half {
        return 2;
    }
    3
}

// w over 2^t.
pub fn cut(w: u64, t: u64) -> Parts
    requires { (1 ≤ t) × (t < 64) }
    ensures { result ≡ parts_of w (2 ^ t) }
{
    let whole = w >> t;
    Parts {
        whole,
        part: part(w - (whole << t), 1u64 << (t - 1)),
    }
}

// What is added in rounding, half to even.
fn step(p: Parts) -> u64
    ensures { result ≡ step_of p }
{
    if p.part < 2 {
        return 0;
    }
    if p.part == 2 {
        return p.whole % 2;
    }
    1
}

// The nearest whole number, half to even.
pub fn rounded(p: Parts) -> u64
    ensures { result ≡ rounded_of p }
{
    std::num::wrapping_add_u64(p.whole, step(p))
}
