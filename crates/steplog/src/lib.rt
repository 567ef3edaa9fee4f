// The step log (document 02, 2026-01): a total, and what the 16-bit counter went on between successive readings.
#![tactic(auto)]

ghost use Rattle.std.specs.Prelude.{◌≡◌};
ghost use Rattle.steplog.specs.Steps.{advance_of, added_to, log_from, log_after, steps_of, StepsTaken, kept_total, done_of};

use refusals::Refusal;

// The sum so far, and the last reading once there is one.
#[derive(Clone, Copy)]
pub struct Log {
    pub sum: Result<u64, Refusal>,
    pub last: Option<u16>,
}

// The later counter less the earlier, modulo 65,536.
fn between(earlier: u16, later: u16) -> u64
    ensures { result ≡ advance_of earlier later }
{
    later.wrapping_sub(earlier) as u64
}

// A sum that was refused stays so.
#[tactic(auto, unfolding(crate::specs::Steps::added_to, crate::specs::Steps::added))]
fn more(sum: Result<u64, Refusal>, n: u64) -> Result<u64, Refusal>
    ensures { result ≡ added_to sum n }
{
    let total = sum?;
    total.checked_add(n).ok_or(Refusal::SumTooLarge)
}

pub fn log_from(total: u64) -> Log
    ensures { result ≡ log_from total }
{
    Log {
        sum: Ok(total),
        last: None,
    }
}

// One reading more; the first adds nothing.
pub fn logged(log: Log, reading: u16) -> Log
    ensures { result ≡ log_after log reading }
{
    let sum = match log.last {
        Some(last) => more(log.sum, between(last, reading)),
        None => log.sum,
    };
    Log {
        sum,
        last: Some(reading),
    }
}

// The total with the advances between successive readings; none or one adds nothing.
pub fn advance(total: u64, readings: &[u16]) -> Result<u64, Refusal>
    ensures value { result ≡ steps_of total readings.now }
    ensures steps_taken { StepsTaken total readings.now result }
{
    let mut log = log_from(total);
    for reading in readings {
        log = logged(log, *reading);
    }
    log.sum
}

// Adds to a stored total, which a refusal leaves as it was.
pub fn add_steps(total: &mut u64, readings: &[u16]) -> Result<(), Refusal>
    ensures value { result ≡ done_of (steps_of total.old readings.now) }
    ensures total_after { total.new ≡ kept_total (steps_of total.old readings.now) total.old }
{
    *total = advance(*total, readings)?;
    Ok(())
}
