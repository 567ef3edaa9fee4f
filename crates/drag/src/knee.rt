// The swing's numbers, the time and the limit to a verdict.
ghost use Rattle.std.specs.Prelude.{◌≡◌};
ghost use Rattle.swing.specs.Bounded.{Bounded};
ghost use Rattle.drag.specs.Verdict.{judged_of, drag_of};

use crate::nanoseconds::{Verdict, weigh};
use carlson::answer::Answer;
use refusals::Refusal;
use swing::period::period;

fn against(answer: Answer, time: u64, limit: u64) -> Result<Verdict, Refusal>
    requires { Bounded answer }
    ensures { result ≡ judged_of answer time limit }
{
    let found = answer?;
    Ok(weigh(found.value, time, limit))
}

// Any five numbers: the swing's length, height and gravity, the time that one swing took and the excess that is allowed, both in
// nanoseconds; or the swing's 11 or 12.
pub fn judge(
    length: u64,
    height: u64,
    gravity: u64,
    time: u64,
    limit: u64,
) -> Result<Verdict, Refusal>
    ensures { result ≡ drag_of length height gravity time limit }
{
    against(period(length, height, gravity), time, limit)
}
