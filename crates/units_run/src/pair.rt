// A call, the same call with every argument multiplied by 4 ^ j / 4 ^ 64, and whether their two answers are alike: demand 3 of
// document 01, in bit patterns and by their exponents, so that nothing is rounded here. Its statement is crates/units' `Alike`.
ghost use Rattle.std.specs.Prelude.{◌+◌, ◌≤◌, ◌<◌};

use binary64::split;
use calls::Call;
use carlson::answer::{Answer, Found};

const TOP: u64 = 0x8000_0000_0000_0000; // the sign's weight in a pattern

const LEAST: u64 = 0x3BF0_0000_0000_0000; // 2 ^ -64

const MOST: u64 = 0x43F0_0000_0000_0000; // 2 ^ 64

const ONE: u64 = 0x0010_0000_0000_0000; // one in the exponent; and the least normal number

// What a pair of calls led to.
#[derive(Clone, Copy)]
pub enum Verdict {
    // Demand 3 does not speak of it.
    Outside,
    // Values that are alike, and refusals that are.
    Values,
    Refusals,
    Differ,
}

// The entry's place in the order RC, RF, RD, RG, RJ. Demand 3 does not speak of cel (document 02, 2026-09), so that it is not
// asked.
pub fn place(call: Call) -> usize {
    match call {
        Call::Rc(_, _) => 0,
        Call::Rf(_, _, _) => 1,
        Call::Rd(_, _, _) => 2,
        Call::Rg(_, _, _) => 3,
        Call::Rj(_, _, _, _) => 4,
        Call::Cel(_, _, _, _) => 5,
    }
}

// The pattern without its sign.
fn size(x: u64) -> u64
    ensures upper_bound { result < 0x8000_0000_0000_0000 }
    ensures upper_bound_2 { result ≤ x }
    ensures x_bound { x ≤ result + 0x8000_0000_0000_0000 }
{
    if x < TOP {
        return x;
    }
    x - TOP
}

fn ranges(size: u64) -> bool {
    if size < LEAST {
        return false;
    }
    size <= MOST
}

// A zero of either sign, or of a size from 2 ^ -64 to 2 ^ 64.
fn in_range(x: u64) -> bool {
    if size(x) == 0 {
        return true;
    }
    ranges(size(x))
}

fn above_zero(x: u64) -> bool {
    if x == 0 {
        return false;
    }
    x < TOP
}

fn two_asked(x: u64, y: u64) -> bool {
    if in_range(x) {
        return in_range(y);
    }
    false
}

fn three_asked(x: u64, y: u64, z: u64) -> bool {
    if two_asked(x, y) {
        return in_range(z);
    }
    false
}

fn four_asked(x: u64, y: u64, z: u64, p: u64) -> bool {
    if above_zero(p) {
        return three_asked(x, y, z) && in_range(p);
    }
    false
}

// Whether demand 3 speaks of the call.
pub fn asked(call: Call) -> bool {
    match call {
        Call::Rc(x, y) => two_asked(x, y),
        Call::Rf(x, y, z) => three_asked(x, y, z),
        Call::Rd(x, y, z) => three_asked(x, y, z),
        Call::Rg(x, y, z) => three_asked(x, y, z),
        Call::Rj(x, y, z, p) => four_asked(x, y, z, p),
        Call::Cel(_, _, _, _) => false,
    }
}

// x times 4 ^ j / 4 ^ 64 where x is in range; there a zero is the only pattern that must not move.
fn moved(x: u64, j: u64) -> u64
    requires { j ≤ 128 }
{
    let s = size(x);
    if s < LEAST {
        return x;
    }
    if s > MOST {
        return x;
    }
    x - 128 * ONE + 2 * j * ONE
}

pub fn scaled(call: Call, j: u64) -> Call
    requires { j ≤ 128 }
{
    match call {
        Call::Rc(x, y) => Call::Rc(moved(x, j), moved(y, j)),
        Call::Rf(x, y, z) => Call::Rf(moved(x, j), moved(y, j), moved(z, j)),
        Call::Rd(x, y, z) => Call::Rd(moved(x, j), moved(y, j), moved(z, j)),
        Call::Rg(x, y, z) => Call::Rg(moved(x, j), moved(y, j), moved(z, j)),
        Call::Rj(x, y, z, p) => Call::Rj(moved(x, j), moved(y, j), moved(z, j), moved(p, j)),
        Call::Cel(kc, p, a, b) => Call::Cel(kc, p, a, b),
    }
}

// Whether y is exactly x times 2 ^ up / 2 ^ down: a zero stays, and the exponent of a normal number moves.
fn times(up: u64, down: u64, x: u64, y: u64) -> bool
    requires up_bound { up ≤ 384 }
    requires down_bound { down ≤ 384 }
{
    let a = size(x);
    let b = size(y);
    if a == 0 {
        return x == y;
    }
    if a < ONE {
        return false;
    }
    if b < ONE {
        return false;
    }
    if (x < TOP) != (y < TOP) {
        return false;
    }
    a + up * ONE == b + down * ONE
}

fn values_alike(call: Call, j: u64, first: Found, second: Found) -> bool
    requires { j ≤ 128 }
{
    if first.way != second.way {
        return false;
    }
    if first.road != second.road {
        return false;
    }
    let x = split(first.value);
    let y = split(second.value);
    match call {
        Call::Rc(_, _) => times(64, j, x, y),
        Call::Rf(_, _, _) => times(64, j, x, y),
        Call::Rd(_, _, _) => times(192, 3 * j, x, y),
        Call::Rg(_, _, _) => times(j, 64, x, y),
        Call::Rj(_, _, _, _) => times(192, 3 * j, x, y),
        Call::Cel(_, _, _, _) => false,
    }
}

// Both are refused with one number, or have one road, one count and as many rescalings, and values as far apart as the entry's
// weight says.
fn compare(call: Call, j: u64, first: Answer, second: Answer) -> Verdict
    requires { j ≤ 128 }
{
    match first {
        Ok(v) => match second {
            Ok(w) => {
                if values_alike(call, j, v, w) {
                    return Verdict::Values;
                }
                Verdict::Differ
            }
            Err(_) => Verdict::Differ,
        },
        Err(first) => match second {
            Ok(_) => Verdict::Differ,
            Err(second) => {
                if first == second {
                    return Verdict::Refusals;
                }
                Verdict::Differ
            }
        },
    }
}

// Of a call and its answer: the call times 4 ^ j / 4 ^ 64. The power 1 is left out, since nothing is asked by it.
pub fn judge(call: Call, first: Answer, j: u64) -> Verdict
    requires { j ≤ 128 }
{
    if j == 64 {
        return Verdict::Outside;
    }
    let other = scaled(call, j);
    if asked(other) {
        let second = answers::answer_of(other);
        return compare(call, j, first, second);
    }
    Verdict::Outside
}
