// A time in whole nanoseconds against an f64 of seconds, in whole numbers: the f64 is so many nanoseconds and a part of one more.
ghost use Rattle.std.specs.Prelude.{◌≡◌, true, ◌+◌, leb};
ghost use Rattle.parted.specs.Parts.{measured};
ghost use Rattle.drag.specs.Verdict.{ahead_of, other_of, apart_of, weighed};

use parted::{Parts, parted, rounded};

// How many nanoseconds a second has.
const BILLION: u64 = 1_000_000_000;

// Whether the knee passes, whether it was quicker than the ideal swing, by how many whole nanoseconds it was apart from it,
// rounded half to even, and the ideal period in seconds.
#[derive(Clone, Copy)]
pub struct Verdict {
    pub passes: bool,
    pub quicker: bool,
    pub excess: u64,
    pub period: f64,
}

// Whether the time is at most `whole` more than the limit: a part of a nanosecond more than that lets no whole one pass.
fn within(whole: u64, time: u64, limit: u64) -> bool
    ensures { result ≡ leb time (whole + limit) }
{
    if time <= limit {
        return true;
    }
    time - limit <= whole
}

// Whether the time is less.
fn ahead(ideal: Parts, time: u64) -> bool
    ensures { result ≡ ahead_of ideal time }
{
    if time < ideal.whole {
        return true;
    }
    if time == ideal.whole {
        return 0 < ideal.part;
    }
    false
}

// What is left of one where that part of it is taken off.
fn other(part: u64) -> u64
    ensures { result ≡ other_of part }
{
    if part == 1 {
        return 3;
    }
    if part == 2 {
        return 2;
    }
    1
}

// How far apart they are.
fn apart(ideal: Parts, time: u64) -> Parts
    ensures { result ≡ apart_of ideal time }
{
    if time <= ideal.whole {
        return Parts {
            whole: ideal.whole - time,
            part: ideal.part,
        };
    }
    if ideal.part == 0 {
        return Parts {
            whole: time - ideal.whole,
            part: 0,
        };
    }
    Parts {
        whole: time - ideal.whole - 1,
        part: other(ideal.part),
    }
}

// The value is that of a period.
pub fn weigh(value: f64, time: u64, limit: u64) -> Verdict
    requires { measured value 1000000000 ≡ true }
    ensures { result ≡ weighed value time limit }
{
    let ideal = parted(value, BILLION);
    Verdict {
        passes: within(ideal.whole, time, limit),
        quicker: ahead(ideal, time),
        excess: rounded(apart(ideal, time)),
        period: value,
    }
}
