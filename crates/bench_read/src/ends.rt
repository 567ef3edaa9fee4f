// What a line is, where it ends.
ghost use Rattle.std.specs.Prelude.{◌≡◌};
ghost use Rattle.bench_read.specs.Rows.{well_named, pair_of, with_times, with_swing, knee_of, peaks_of};

use crate::rows::{Row, Stage};
use millimetres::at_end;
use swing_read::{Ended, Line, Reading, close};

// The swing's three numbers, the time and the limit.
#[derive(Clone, Copy)]
pub struct Knee {
    pub length: u64,
    pub height: u64,
    pub gravity: u64,
    pub time: u64,
    pub limit: u64,
}

// The last two numbers of a line: two peaks, or a knee's time and limit.
#[derive(Clone, Copy)]
pub struct Peaks {
    pub first: u64,
    pub second: u64,
}

// The longest name.
const NAME: usize = 32;

// Two numbers, the second of which ends here.
#[tactic(auto, unfolding(crate::specs::Rows::pair_of, crate::specs::Rows::paired))]
fn pair(r: Option<Reading>) -> Option<Peaks>
    ensures { result ≡ pair_of r }
{
    let r = r?;
    let second = r.value?;
    match r.ended {
        Ended::First(first) => Some(Peaks { first, second }),
        Ended::NoneYet | Ended::Second(_, _) => None,
    }
}

#[tactic(auto, unfolding(crate::specs::Rows::with_times))]
fn with_times(length: u64, height: u64, gravity: u64, times: Option<Peaks>) -> Option<Knee>
    ensures { result ≡ with_times length height gravity times }
{
    let times = times?;
    Some(Knee {
        length,
        height,
        gravity,
        time: times.first,
        limit: times.second,
    })
}

#[tactic(auto, unfolding(crate::specs::Rows::with_swing))]
fn with_swing(swing: Option<Line>, times: Option<Peaks>) -> Option<Knee>
    ensures { result ≡ with_swing swing times }
{
    match swing? {
        Line::Three(length, height, gravity) => with_times(length, height, gravity, times),
        Line::One(_) => None,
    }
}

#[tactic(auto, unfolding(crate::specs::Rows::well_named))]
fn well_named(name: usize) -> bool
    ensures { result ≡ well_named name }
{
    0 < name && name <= NAME
}

// A knee whose name has so many bytes.
#[tactic(auto, unfolding(crate::specs::Rows::knee_of, crate::specs::Rows::good_at))]
pub fn knee_of(r: Row, name: usize) -> Option<Knee>
    ensures { result ≡ knee_of r name }
{
    match r.stage {
        Stage::Spoilt => None,
        Stage::NothingYet | Stage::Begun | Stage::Returned => {
            if well_named(name) {
                with_swing(close(at_end(r.swing)), pair(at_end(r.times)))
            } else {
                None
            }
        }
    }
}

#[tactic(auto, unfolding(crate::specs::Rows::peaks_of, crate::specs::Rows::good_at))]
pub fn peaks_of(r: Row) -> Option<Peaks>
    ensures { result ≡ peaks_of r }
{
    match r.stage {
        Stage::Spoilt => None,
        Stage::NothingYet | Stage::Begun | Stage::Returned => pair(at_end(r.times)),
    }
}
