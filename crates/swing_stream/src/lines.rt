// A line that has ended: the state after it, and what is said to it.
ghost use Rattle.std.specs.Prelude.{◌≡◌, ◌+◌, ◌≤◌, length};
ghost use Rattle.writing.specs.Written.{Put};
ghost use Rattle.swing_write.specs.Replies.{longest_swing};
ghost use Rattle.swing_stream.specs.Lines.{
  line_start,
  swings_from,
  steps_from,
  noted,
  entered,
  kind_after,
  swing_said,
  steps_said,
  after_line,
  said_to,
};

use millimetres::{Measured, lengths, plain};
use steplog::{Log, log_from, logged};
use swing_read::Line;
use swing_write::put_swing;
use writing::put_text;

// The lines are the swing's, or the step log's, with the log once its total is known.
#[derive(Clone, Copy)]
pub enum Kind {
    Periods,
    Steps(Option<Log>),
}

// Beside the kind, what is read of a line that has not ended.
#[derive(Clone, Copy)]
pub struct State {
    pub kind: Kind,
    pub reading: Measured,
}

// Nothing has come of a line: the swing's has lengths, the step log's has none.
#[tactic(auto, unfolding(crate::specs::Lines::line_start))]
fn line_start(kind: Kind) -> Measured
    ensures { result ≡ line_start kind }
{
    match kind {
        Kind::Periods => lengths(),
        Kind::Steps(_) => plain(),
    }
}

#[tactic(auto, unfolding(crate::specs::Lines::swings_from))]
pub fn swings_begin() -> State
    ensures { result ≡ swings_from }
{
    State {
        kind: Kind::Periods,
        reading: line_start(Kind::Periods),
    }
}

#[tactic(auto, unfolding(crate::specs::Lines::steps_from))]
pub fn steps_begin() -> State
    ensures { result ≡ steps_from }
{
    State {
        kind: Kind::Steps(None),
        reading: line_start(Kind::Steps(None)),
    }
}

// The log with a number more, if it takes it: the first is any total, each other a reading of 16 bits.
#[tactic(auto, unfolding(crate::specs::Lines::noted))]
fn noted(log: Option<Log>, n: u64) -> Option<Log>
    ensures { result ≡ noted log n }
{
    match log {
        None => Some(log_from(n)),
        Some(log) => {
            let reading = u16::try_from(n).ok()?;
            Some(logged(log, reading))
        }
    }
}

// The log with a line more, if it takes it.
#[tactic(auto, unfolding(crate::specs::Lines::entered))]
fn entered(log: Option<Log>, line: Option<Line>) -> Option<Log>
    ensures { result ≡ entered log line }
{
    match line? {
        Line::One(n) => noted(log, n),
        Line::Three(_, _, _) => None,
    }
}

// A line that the log does not take is left out.
#[tactic(auto, unfolding(crate::specs::Lines::kind_after))]
fn kind_after(kind: Kind, line: Option<Line>) -> Kind
    ensures { result ≡ kind_after kind line }
{
    match kind {
        Kind::Periods => Kind::Periods,
        Kind::Steps(log) => Kind::Steps(entered(log, line).or(log)),
    }
}

#[tactic(auto, unfolding(crate::specs::Lines::after_line))]
pub fn after_line(s: State, line: Option<Line>) -> State
    ensures { result ≡ after_line s line }
{
    State {
        kind: kind_after(s.kind, line),
        reading: line_start(s.kind),
    }
}

#[tactic(auto, unfolding(crate::specs::Lines::swing_said))]
fn put_swing_line(line: Option<Line>, out: &mut [u8], at: usize) -> usize
    requires { at + longest_swing ≤ length out.old }
    ensures { Put out.old at (swing_said line) out.new result }
{
    match line {
        Some(Line::Three(length, height, gravity)) => put_swing(length, height, gravity, out, at),
        _ => put_text(b"bad line\n", out, at),
    }
}

#[tactic(auto, unfolding(crate::specs::Lines::steps_said))]
fn put_steps_line(log: Option<Log>, line: Option<Line>, out: &mut [u8], at: usize) -> usize
    requires { at + longest_swing ≤ length out.old }
    ensures { Put out.old at (steps_said log line) out.new result }
{
    match entered(log, line) {
        Some(_) => at,
        None => put_text(b"bad line\n", out, at),
    }
}

#[tactic(auto, unfolding(crate::specs::Lines::said_to, crate::specs::Lines::said_in))]
pub fn put_line(s: State, line: Option<Line>, out: &mut [u8], at: usize) -> usize
    requires { at + longest_swing ≤ length out.old }
    ensures { Put out.old at (said_to s line) out.new result }
{
    match s.kind {
        Kind::Periods => put_swing_line(line, out, at),
        Kind::Steps(log) => put_steps_line(log, line, out, at),
    }
}
