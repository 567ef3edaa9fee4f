// What one answer counts.
ghost use Rattle.std.specs.Prelude.{◌≡◌};
ghost use Rattle.tally.specs.Tally.{counted_of};

use binary64::split;
use carlson::answer::Answer;

const INFINITY: u64 = 0x7ff0_0000_0000_0000; // the pattern of the infinity: a sum takes none of it

// The refusal's number, or 0; the rounds of a value; its bits, or those of an infinity, of which a sum takes nothing.
#[derive(Clone, Copy)]
pub struct Counted {
    pub refused: u64,
    pub rounds: u64,
    pub bits: u64,
}

pub fn counted_of(answer: Answer) -> Counted
    ensures { result ≡ counted_of answer }
{
    match answer {
        Ok(found) => {
            let way = found.way;
            Counted {
                refused: 0,
                rounds: way.rounds as u64,
                bits: split(found.value),
            }
        }
        Err(refusal) => Counted {
            refused: refusal.number() as u64,
            rounds: 0,
            bits: INFINITY,
        },
    }
}
