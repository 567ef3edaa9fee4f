// The swing time and the step log for C (document 02, 2026-01).
ghost use Rattle.std.specs.Prelude.{◌≡◌};
ghost use Rattle.swing.specs.Period.{period_of};
ghost use Rattle.steplog.specs.Steps.{steps_of, steps_number, kept_total};
ghost use Rattle.c_answer.specs.Told.{number_of, value_after, rounds_after, road_after, rescalings_after};

use c_answer::told;
use refusals::code;

#[unsafe(no_mangle)]
pub extern "C" fn gatewren_swing(
    length: u64,
    height: u64,
    gravity: u64,
    value: &mut f64,
    rounds: &mut u32,
    road: &mut u32,
    rescalings: &mut u32,
) -> u32
    ensures value { result ≡ number_of (period_of length height gravity) }
    ensures value_after { value.new ≡ value_after (period_of length height gravity) value.old }
    ensures rounds_after { rounds.new ≡ rounds_after (period_of length height gravity) rounds.old }
    ensures road_after { road.new ≡ road_after (period_of length height gravity) road.old }
    ensures rescalings_after { rescalings.new ≡ rescalings_after (period_of length height gravity) rescalings.old }
{
    told(
        swing::period::period(length, height, gravity),
        value,
        rounds,
        road,
        rescalings,
    )
}

#[unsafe(no_mangle)]
pub extern "C" fn gatewren_steps(total: &mut u64, readings: &[u16]) -> u32
    ensures value { result ≡ steps_number (steps_of total.old readings.now) }
    ensures total_after { total.new ≡ kept_total (steps_of total.old readings.now) total.old }
{
    code(steplog::add_steps(total, readings))
}
