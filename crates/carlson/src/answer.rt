// An answer is a value with its road and way, or the refusal that stands in its place (document 01, "Numbers for no"). A
// `Found` is made by the functions here alone: one for each road to a value, and two that keep the road of what was found.
ghost use Rattle.std.specs.Prelude.{◌≡◌};
ghost use Rattle.std.specs.Float.{nan};
ghost use Rattle.carlson.specs.Answer.{
  wrapped_ways,
  closed_at,
  carried_at,
  infinite_found,
  infinite_at,
  agm_at,
  duplication_at,
  duplication_over,
  joint_at,
  taylor_at,
  reduction_at,
  loop_at,
  rescaled_at,
  handed_at,
  road_number,
  settled,
  settled_told,
};

use binary64::is_finite;
use refusals::{Refusal, Told};

// Which formula answered (document 02, 2026-04; the loop is cel's alone, 2026-09).
#[derive(Clone, Copy, Debug, PartialEq, Eq)]
pub enum Road {
    Closed,
    Infinite,
    Agm,
    Duplication,
    Joint,
    Taylor,
    Reduction,
    Loop,
}

impl Road {
    // Its number for other programs, in the order in which document 02 names them.
    pub fn number(self) -> u32
        ensures { result ≡ road_number self }
    {
        match self {
            Road::Closed => 1,
            Road::Infinite => 2,
            Road::Agm => 3,
            Road::Duplication => 4,
            Road::Joint => 5,
            Road::Taylor => 6,
            Road::Reduction => 7,
            Road::Loop => 8,
        }
    }
}

// What adds up over the call and all it calls: the rounds begun, and the rescalings.
#[derive(Clone, Copy, Debug, PartialEq, Eq)]
pub struct Way {
    pub rounds: u32,
    pub rescalings: u32,
}

// What the steps found. Between the inner parts the value may be any f64; an entry hands out only a finite one.
#[derive(Clone, Copy)]
pub struct Found {
    pub value: f64,
    pub road: Road,
    pub way: Way,
}

pub type Answer = Result<Found, Refusal>;

// Two ways gone one after the other. A call's counts are so few that the sums never wrap (specs/Ways.antt, `few_ways`).
pub fn both_ways(a: Way, b: Way) -> Way
    ensures { result ≡ wrapped_ways a b }
{
    Way {
        rounds: std::num::wrapping_add_u32(a.rounds, b.rounds),
        rescalings: std::num::wrapping_add_u32(a.rescalings, b.rescalings),
    }
}

// A formula gave the value: no round was begun.
pub fn closed(value: f64) -> Found
    ensures { result ≡ closed_at value }
{
    Found {
        value,
        road: Road::Closed,
        way: Way {
            rounds: 0,
            rescalings: 0,
        },
    }
}

// A formula put together of what other functions found is closed, and carries their way.
pub fn carried(value: f64, way: Way) -> Found
    ensures { result ≡ carried_at value way }
{
    Found {
        value,
        road: Road::Closed,
        way,
    }
}

fn infinite_found() -> Found
    ensures { result ≡ infinite_found }
{
    Found {
        value: 0.0,
        road: Road::Infinite,
        way: Way {
            rounds: 0,
            rescalings: 0,
        },
    }
}

// The zero for an infinite argument.
pub fn infinite() -> Answer
    ensures { result ≡ infinite_at }
{
    Ok(infinite_found())
}

// The arithmetic-geometric mean, after so many passes that replaced the means.
pub fn agm(value: f64, rounds: u32) -> Found
    ensures { result ≡ agm_at value rounds }
{
    Found {
        value,
        road: Road::Agm,
        way: Way {
            rounds,
            rescalings: 0,
        },
    }
}

// Duplication, after so many passes begun.
pub fn duplication(value: f64, rounds: u32) -> Found
    ensures { result ≡ duplication_at value rounds }
{
    Found {
        value,
        road: Road::Duplication,
        way: Way {
            rounds,
            rescalings: 0,
        },
    }
}

// Duplication whose passes called functions that rescaled so often: RJ's.
pub fn duplication_over(value: f64, rounds: u32, rescalings: u32) -> Found
    ensures { result ≡ duplication_over value rounds rescalings }
{
    Found {
        value,
        road: Road::Duplication,
        way: Way { rounds, rescalings },
    }
}

// The joint duplication of RF and RD, after so many passes begun.
pub fn joint(value: f64, rounds: u32) -> Found
    ensures { result ≡ joint_at value rounds }
{
    Found {
        value,
        road: Road::Joint,
        way: Way {
            rounds,
            rescalings: 0,
        },
    }
}

// The expansion near RJ's zero: no round was begun.
pub fn taylor(value: f64) -> Found
    ensures { result ≡ taylor_at value }
{
    Found {
        value,
        road: Road::Taylor,
        way: Way {
            rounds: 0,
            rescalings: 0,
        },
    }
}

// The reduction of a negative p, with the way of all that it called.
pub fn reduction(value: f64, way: Way) -> Found
    ensures { result ≡ reduction_at value way }
{
    Found {
        value,
        road: Road::Reduction,
        way,
    }
}

// cel's loop, after so many passes begun.
pub fn looped(value: f64, rounds: u32) -> Found
    ensures { result ≡ loop_at value rounds }
{
    Found {
        value,
        road: Road::Loop,
        way: Way {
            rounds,
            rescalings: 0,
        },
    }
}

// What was found at rescaled arguments, with the value that this gives at those of the call: its road, and a rescaling more.
pub fn rescaled(found: Found, value: f64) -> Found
    ensures { result ≡ rescaled_at found value }
{
    let road = found.road;
    let way = found.way;
    Found {
        value,
        road,
        way: Way {
            rounds: way.rounds,
            rescalings: std::num::wrapping_add_u32(way.rescalings, 1),
        },
    }
}

// What was found by the function that the whole answer was left to, with the value that this gives.
pub fn handed(found: Found, value: f64) -> Found
    ensures { result ≡ handed_at found value }
{
    let road = found.road;
    let way = found.way;
    Found { value, road, way }
}

// A finite value stands; else the refusal says why there is none. It comes as the caller has it, also as a bare number.
pub fn settle<R: Copy>(found: Found, refusal: R) -> Result<Found, R>
    ensures { result ≡ settled found refusal }
{
    let value = found.value;
    if is_finite(value) {
        return Ok(found);
    }
    Err(refusal)
}

// A finite value stands; else a NaN among the arguments is refused as such, then an infinite one gives the zero.
pub fn settle_late<R: Told>(
    found: Found,
    nan: bool,
    unbounded: bool,
    refusal: R,
) -> Result<Found, R>
    ensures { result ≡ settled_told R.told found nan unbounded refusal }
{
    let value = found.value;
    if is_finite(value) {
        return Ok(found);
    }
    if nan {
        return Err(R::of(Refusal::NanGiven));
    }
    if unbounded {
        return Ok(infinite_found());
    }
    Err(refusal)
}

// The value of a loop that was not left: no number.
pub fn not_a_number() -> f64
    ensures { result ≡ nan }
{
    0.0 / 0.0
}
