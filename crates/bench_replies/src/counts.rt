// A day's tallies. Which of them a reply is told in is a number.
ghost use Rattle.std.specs.Prelude.{◌≡◌};
ghost use Rattle.bench_replies.specs.Replies.{kind_of, more_of, counted_of, tallied_of};

use bench_write::{Said, Tally};

// 0 passed, 1 drags, 2 refused, 3 a bad line, 4 none of these.
fn kind(reply: Said) -> u64
    ensures { result ≡ kind_of reply }
{
    match reply {
        Said::Weighed(verdict) => {
            if verdict.passes {
                return 0;
            }
            1
        }
        Said::NoVerdict(_) => 2,
        Said::Decrement(_) => 4,
        Said::NoDecrement(_) => 4,
        Said::Bad => 3,
        Said::Tallies(_) => 4,
    }
}

fn more(n: u64, one: bool) -> u64
    ensures { result ≡ more_of n one }
{
    if one {
        return std::num::wrapping_add_u64(n, 1);
    }
    n
}

fn counted(t: Tally, kind: u64) -> Tally
    ensures { result ≡ counted_of t kind }
{
    Tally {
        passed: more(t.passed, kind == 0),
        dragging: more(t.dragging, kind == 1),
        refused: more(t.refused, kind == 2),
        bad: more(t.bad, kind == 3),
    }
}

pub fn tallied(t: Tally, reply: Said) -> Tally
    ensures { result ≡ tallied_of t reply }
{
    counted(t, kind(reply))
}
