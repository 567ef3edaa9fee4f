// What a line asks, answered.
ghost use Rattle.std.specs.Prelude.{◌≡◌};
ghost use Rattle.bench_replies.specs.Replies.{of_judged, of_decay, knee_reply, peaks_reply, reply_of};

use bench_read::{Knee, Peaks, Row, knee_of, peaks_of};
use bench_write::Said;
use decay::decrement;
use drag::{Verdict, judge};
use refusals::Refusal;

#[tactic(auto, unfolding(crate::specs::Replies::of_judged))]
fn of_judged(judged: Result<Verdict, Refusal>) -> Said
    ensures { result ≡ of_judged judged }
{
    match judged {
        Ok(verdict) => Said::Weighed(verdict),
        Err(refusal) => Said::NoVerdict(refusal),
    }
}

#[tactic(auto, unfolding(crate::specs::Replies::of_decay))]
fn of_decay(decay: Result<f64, Refusal>) -> Said
    ensures { result ≡ of_decay decay }
{
    match decay {
        Ok(value) => Said::Decrement(value),
        Err(refusal) => Said::NoDecrement(refusal),
    }
}

#[tactic(auto, unfolding(crate::specs::Replies::knee_reply))]
fn knee_reply(knee: Option<Knee>) -> Said
    ensures { result ≡ knee_reply knee }
{
    match knee {
        Some(knee) => of_judged(judge(
            knee.length,
            knee.height,
            knee.gravity,
            knee.time,
            knee.limit,
        )),
        None => Said::Bad,
    }
}

#[tactic(auto, unfolding(crate::specs::Replies::peaks_reply))]
fn peaks_reply(peaks: Option<Peaks>) -> Said
    ensures { result ≡ peaks_reply peaks }
{
    match peaks {
        Some(peaks) => of_decay(decrement(peaks.first, peaks.second)),
        None => Said::Bad,
    }
}

// The reply to a line, of two peaks or of a knee whose name has so many bytes.
pub fn reply_to(decays: bool, row: Row, name: usize) -> Said
    ensures { result ≡ reply_of decays row name }
{
    if decays {
        return peaks_reply(peaks_of(row));
    }
    knee_reply(knee_of(row, name))
}
