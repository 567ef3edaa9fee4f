// RJ for p above zero: the special cases (DLMF 19.20(iii)), else duplication.
//
// What another function answers is bound before it is returned. Else it is written where the formulas' answers stand too, and the
// compiler puts these together in memory piece by piece and reads them back whole, for which the processor waits.
ghost use Rattle.std.specs.Prelude.{◌≡◌};
ghost use Rattle.rj_positive.specs.Positive.{well_apart, rj_all, rj_three, rj_two, rj_last, rj_pair, rj_cases, rj_positive};

use crate::duplicate::duplicated;
use binary64::{max, min};
use carlson::answer::{Answer, both_ways, carried, closed};
use elliprc::elliprc_unchecked;
use elliprd::elliprd_unchecked;
use root::sqrt;

// Whether p and x are so far apart that the elementary formula is well conditioned.
fn well_apart(p: f64, x: f64) -> bool
    ensures { result ≡ well_apart p x }
{
    max(p, x) / min(p, x) > 1.2
}

// RJ(x, x, x, x)
fn all_equal(x: f64) -> Answer
    ensures { result ≡ rj_all x }
{
    Ok(closed(1.0 / (x * sqrt(x))))
}

// RJ(x, x, x, p)
fn three_equal(x: f64, p: f64) -> Answer
    ensures { result ≡ rj_three x p }
{
    let rc = elliprc_unchecked(x, p);
    Ok(carried((3.0 / (x - p)) * (rc.value - 1.0 / sqrt(x)), rc.way))
}

// RJ(x, y, y, p)
fn two_equal(x: f64, y: f64, p: f64) -> Answer
    ensures { result ≡ rj_two x y p }
{
    let first = elliprc_unchecked(x, y);
    let second = elliprc_unchecked(x, p);
    let way = both_ways(first.way, second.way);
    Ok(carried(3.0 * (first.value - second.value) / (p - y), way))
}

// No two of x, y, z are of use; RJ(x, y, z, z) is RD.
fn last(x: f64, y: f64, z: f64, p: f64) -> Answer
    ensures { result ≡ rj_last x y z p }
{
    if z == p {
        let a = elliprd_unchecked(x, y, z);
        return a;
    }
    let found = duplicated(x, y, z, p);
    Ok(found)
}

// y = z. A large x makes the RC values nearly equal even when p and y differ, so both sources of cancellation are excluded.
fn pair(x: f64, y: f64, z: f64, p: f64) -> Answer
    ensures { result ≡ rj_pair x y z p }
{
    if y == p {
        let a = elliprd_unchecked(x, y, y);
        return a;
    }
    if well_apart(p, y) {
        if x <= max(y, p) {
            return two_equal(x, y, p);
        }
        let a = last(x, y, z, p);
        return a;
    }
    let a = last(x, y, z, p);
    a
}

fn cases(x: f64, y: f64, z: f64, p: f64) -> Answer
    ensures { result ≡ rj_cases x y z p }
{
    if y == z {
        return pair(x, y, z, p);
    }
    let a = last(x, y, z, p);
    a
}

pub fn positive(x: f64, y: f64, z: f64, p: f64) -> Answer
    ensures { result ≡ rj_positive x y z p }
{
    if x == y {
        if x == z {
            if x == p {
                return all_equal(x);
            }
            if well_apart(p, x) {
                return three_equal(x, p);
            }
            let a = cases(x, y, z, p);
            return a;
        }
        let a = cases(z, y, x, p);
        return a;
    }
    let a = cases(x, y, z, p);
    a
}
