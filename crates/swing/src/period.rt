// The period of a swing, in seconds, from whole micrometres: four times the root of L/g times RF(0, (2L-h)/(2L), 1).
ghost use Rattle.std.specs.Prelude.{◌≡◌, ◌*◌, ◌≤◌};
ghost use Rattle.swing.specs.Period.{within, ratio, four_roots, times, swung, period_of, swing_numbers};
ghost use Rattle.carlson.specs.Only.{Only, Finite};

use carlson::answer::{Answer, handed};
use elliprf::elliprf;
use refusals::Refusal;
use root::sqrt;

const MOST_LENGTH: u64 = 10_000_000;

const MOST_GRAVITY: u64 = 20_000_000;

// Whether n is from 1 to `most`.
fn in_range(n: u64, most: u64) -> bool
    ensures { result ≡ within n most }
{
    if 1 <= n {
        return n <= most;
    }
    false
}

// The quotient of two whole numbers that are f64s as they stand.
fn quotient(a: u64, b: u64) -> f64
    requires a_bound { a ≤ 20000000 }
    requires b_bound { b ≤ 20000000 }
    ensures { result ≡ ratio a b }
{
    a as f64 / b as f64
}

fn four_roots(length: u64, gravity: u64) -> f64
    requires length_len_bound { length ≤ 20000000 }
    requires gravity_bound { gravity ≤ 20000000 }
    ensures { result ≡ four_roots length gravity }
{
    4.0 * sqrt(quotient(length, gravity))
}

// What RF found, times a factor; a refusal goes through as it is.
fn multiplied(factor: f64, answer: Answer) -> Answer
    ensures { result ≡ times factor answer }
{
    let found = answer?;
    Ok(handed(found, factor * found.value))
}

fn swing_time(length: u64, height: u64, gravity: u64) -> Answer
    requires length_len_bound { length ≤ 10000000 }
    requires gravity_bound { gravity ≤ 20000000 }
    requires height_bound { height ≤ 2 * length }
    ensures { result ≡ swung length height gravity }
{
    let y = quotient(2 * length - height, 2 * length);
    multiplied(four_roots(length, gravity), elliprf(0.0, y, 1.0))
}

// Any three numbers: the period with RF's road and way, or 11 or 12. Why RF never refuses here is in specs/Bounded.antt.
pub fn period(length: u64, height: u64, gravity: u64) -> Answer
    ensures value { result ≡ period_of length height gravity }
    ensures only { Only Finite swing_numbers result }
{
    if in_range(length, MOST_LENGTH) {
        if in_range(gravity, MOST_GRAVITY) {
            if in_range(height, 2 * length - 1) {
                return swing_time(length, height, gravity);
            }
            return Err(Refusal::Height);
        }
        return Err(Refusal::OutOfRange);
    }
    Err(Refusal::OutOfRange)
}
