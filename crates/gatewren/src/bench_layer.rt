// The bench for C: the verdict on a knee, and the decrement of two peaks. 0 with the places written, or the number with none
// touched.
ghost use Rattle.std.specs.Prelude.{◌≡◌};
ghost use Rattle.drag.specs.Verdict.{drag_of};
ghost use Rattle.decay.specs.Decrement.{decay_of};
ghost use Rattle.gatewren.specs.Bench.{word_of, minus_of, judged_number, verdict_after, minus_after, excess_after, period_after};
ghost use Rattle.gatewren.specs.Bench.{decay_number, decrement_after};

use drag::Verdict;
use refusals::Refusal;

fn word(passes: bool) -> u32
    ensures { result ≡ word_of passes }
{
    if passes {
        return 1;
    }
    2
}

fn minus(quicker: bool) -> u32
    ensures { result ≡ minus_of quicker }
{
    if quicker {
        return 1;
    }
    0
}

fn told_verdict(
    judged: Result<Verdict, Refusal>,
    verdict: &mut u32,
    below: &mut u32,
    excess: &mut u64,
    period: &mut f64,
) -> u32
    ensures value { result ≡ judged_number judged }
    ensures verdict_after { verdict.new ≡ verdict_after judged verdict.old }
    ensures below_after { below.new ≡ minus_after judged below.old }
    ensures excess_after { excess.new ≡ excess_after judged excess.old }
    ensures period_after { period.new ≡ period_after judged period.old }
{
    match judged {
        Ok(v) => {
            *verdict = word(v.passes);
            *below = minus(v.quicker);
            *excess = v.excess;
            *period = v.period;
            0
        }
        Err(refusal) => refusal.number(),
    }
}

#[unsafe(no_mangle)]
pub extern "C" fn gatewren_drag(
    length: u64,
    height: u64,
    gravity: u64,
    time: u64,
    limit: u64,
    verdict: &mut u32,
    below: &mut u32,
    excess: &mut u64,
    period: &mut f64,
) -> u32
    ensures value { result ≡ judged_number (drag_of length height gravity time limit) }
    ensures verdict_after { verdict.new ≡ verdict_after (drag_of length height gravity time limit) verdict.old }
    ensures below_after { below.new ≡ minus_after (drag_of length height gravity time limit) below.old }
    ensures excess_after { excess.new ≡ excess_after (drag_of length height gravity time limit) excess.old }
    ensures period_after { period.new ≡ period_after (drag_of length height gravity time limit) period.old }
{
    told_verdict(
        drag::judge(length, height, gravity, time, limit),
        verdict,
        below,
        excess,
        period,
    )
}

#[unsafe(no_mangle)]
pub extern "C" fn gatewren_decay(a: u64, b: u64, decrement: &mut f64) -> u32
    ensures value { result ≡ decay_number (decay_of a b) }
    ensures decrement_after { decrement.new ≡ decrement_after (decay_of a b) decrement.old }
{
    match decay::decrement(a, b) {
        Ok(value) => {
            *decrement = value;
            0
        }
        Err(refusal) => refusal.number(),
    }
}
