// The text of an answer, from a place of a lent slice on; the place after it.
ghost use Rattle.std.specs.Prelude.{◌+◌, ◌≤◌, length};
ghost use Rattle.between.specs.Between.{Between};
ghost use Rattle.swing.specs.Ratios.{power};
ghost use Rattle.swing.specs.Bounded.{Bounded};
ghost use Rattle.swing.specs.Period.{period_of};
ghost use Rattle.writing.specs.Written.{Put, Tried};
ghost use Rattle.swing_write.specs.Replies.{number_text, seconds_text, period_text, refused_text, swing_text, total_text};
ghost use Rattle.swing_write.specs.Replies.{
  longest_number,
  longest_seconds,
  longest_period,
  longest_refused,
  longest_swing,
  longest_total,
};

use crate::seconds::{TRILLION, ticks};
use binary64::split;
use carlson::answer::{Answer, Found};
use refusals::Refusal;
use swing::period::period;
use writing::{has_room, put_decimal, put_places, put_text, put_word};

// No answer to a swing is longer, and none to a step log.
pub const LONGEST_SWING: usize = 51;

pub const LONGEST_TOTAL: usize = 29;

// A number in decimal and a byte after it.
fn put_number(n: u64, end: u8, out: &mut [u8], at: usize) -> usize
    requires { at + longest_number ≤ length out.old }
    ensures { Put out.old at (number_text n end) out.new result }
{
    let place = put_decimal(n, 19, out, at);
    out[place] = end;
    place + 1
}

// So many units of 10^-12 s as seconds.
fn put_seconds(t: u64, out: &mut [u8], at: usize) -> usize
    requires { at + longest_seconds ≤ length out.old }
    ensures { Put out.old at (seconds_text t) out.new result }
{
    let point = put_number(t / TRILLION, b'.', out, at);
    put_places(t, 12, out, point)
}

fn put_period(found: Found, out: &mut [u8], at: usize) -> usize
    requires longest_period_in_bounds { at + longest_period ≤ length out.old }
    requires between { Between (power 1012) (power 1042) found.value }
    ensures { Put out.old at (period_text found) out.new result }
{
    let blank = put_word(split(found.value), out, at);
    out[blank] = b' ';
    let end = put_seconds(ticks(found.value), out, blank + 1);
    out[end] = b'\n';
    end + 1
}

fn put_refused(number: u32, out: &mut [u8], at: usize) -> usize
    requires { at + longest_refused ≤ length out.old }
    ensures { Put out.old at (refused_text number) out.new result }
{
    let after = put_text(b"refused ", out, at);
    put_number(number as u64, b'\n', out, after)
}

fn write_swing(answer: Answer, out: &mut [u8], at: usize) -> usize
    requires longest_swing_in_bounds { at + longest_swing ≤ length out.old }
    requires bounded { Bounded answer }
    ensures { Put out.old at (swing_text answer) out.new result }
{
    match answer {
        Ok(found) => put_period(found, out, at),
        Err(refusal) => put_refused(refusal.number(), out, at),
    }
}

fn write_total(steps: Result<u64, Refusal>, out: &mut [u8], at: usize) -> usize
    requires { at + longest_total ≤ length out.old }
    ensures { Put out.old at (total_text steps) out.new result }
{
    match steps {
        Ok(total) => put_number(total, b'\n', out, at),
        Err(refusal) => put_refused(refusal.number(), out, at),
    }
}

// What is answered to a length, a height and a gravity, if there is room for the longest; the place after it.
pub fn put_swing(length: u64, height: u64, gravity: u64, out: &mut [u8], at: usize) -> usize
    ensures { Tried longest_swing out.old at (swing_text (period_of «length» height gravity))
        out.new result }
{
    if has_room(out.len(), at, LONGEST_SWING) {
        return write_swing(period(length, height, gravity), out, at);
    }
    at
}

// The step log's total, likewise.
pub fn put_total(steps: Result<u64, Refusal>, out: &mut [u8], at: usize) -> usize
    ensures { Tried longest_total out.old at (total_text steps) out.new result }
{
    if has_room(out.len(), at, LONGEST_TOTAL) {
        return write_total(steps, out, at);
    }
    at
}
