// A line as it comes: one number, or three with one blank between. A number is decimal, a u64, with no zero in front and no sign.
// A line that is bad, whatever comes, is None.
#![tactic(auto)]

ghost use Rattle.std.specs.Prelude.{◌≡◌};
ghost use Rattle.swing_read.specs.Reading.{start_of, figure_of, ended_so, blank_after, longer_after, digit_after, byte_after};
ghost use Rattle.swing_read.specs.Reading.{line_of, at_start};

// The numbers that have ended.
#[derive(Clone, Copy)]
pub enum Ended {
    NoneYet,
    First(u64),
    Second(u64, u64),
}

// What is known of a line that has not ended: these numbers, and the one that has not, once it has a figure.
#[derive(Clone, Copy)]
pub struct Reading {
    pub ended: Ended,
    pub value: Option<u64>,
}

#[derive(Clone, Copy)]
pub enum Line {
    One(u64),
    Three(u64, u64, u64),
}

pub fn start() -> Reading
    ensures { result ≡ start_of }
{
    Reading {
        ended: Ended::NoneYet,
        value: None,
    }
}

// These numbers have ended, and the next has no figure.
fn behind(numbers: Ended) -> Option<Reading>
    ensures { result ≡ ended_so numbers }
{
    Some(Reading {
        ended: numbers,
        value: None,
    })
}

// A blank ends a number that has a figure, if there may be another after it.
#[tactic(auto, unfolding(crate::specs::Reading::blank_after, crate::specs::Reading::ending))]
fn blank(r: Reading) -> Option<Reading>
    ensures { result ≡ blank_after r }
{
    let value = r.value?;
    match r.ended {
        Ended::NoneYet => behind(Ended::First(value)),
        Ended::First(first) => behind(Ended::Second(first, value)),
        Ended::Second(_, _) => None,
    }
}

// What a byte says as a figure.
#[tactic(auto, unfolding(crate::specs::Reading::figure_of))]
pub fn figure(b: u8) -> Option<u64>
    ensures { result ≡ figure_of b }
{
    match b {
        b'0'..=b'9' => Some((b - b'0') as u64),
        _ => None,
    }
}

// One figure more, where the number stays a u64.
#[tactic(auto, unfolding(crate::specs::Reading::longer_after, crate::specs::Reading::longer_value))]
pub fn longer(r: Reading, figure: u64) -> Option<Reading>
    ensures { result ≡ longer_after r figure }
{
    let value = match r.value {
        None => figure,
        Some(value) => value.checked_mul(10)?.checked_add(figure)?,
    };
    Some(Reading {
        ended: r.ended,
        value: Some(value),
    })
}

// Behind a zero in front no figure comes.
#[tactic(auto, unfolding(crate::specs::Reading::digit_after, crate::specs::Reading::zero_alone))]
fn digit(r: Reading, figure: u64) -> Option<Reading>
    ensures { result ≡ digit_after r figure }
{
    match r.value {
        Some(0) => None,
        _ => longer(r, figure),
    }
}

// One byte more of the line.
#[tactic(auto, unfolding(crate::specs::Reading::byte_after))]
pub fn step(r: Option<Reading>, b: u8) -> Option<Reading>
    ensures { result ≡ byte_after r b }
{
    let r = r?;
    if b == b' ' {
        blank(r)
    } else {
        digit(r, figure(b)?)
    }
}

// What the line is, where it ends here.
#[tactic(auto, unfolding(crate::specs::Reading::line_of, crate::specs::Reading::closing))]
pub fn close(r: Option<Reading>) -> Option<Line>
    ensures { result ≡ line_of r }
{
    let r = r?;
    let value = r.value?;
    match r.ended {
        Ended::NoneYet => Some(Line::One(value)),
        Ended::First(_) => None,
        Ended::Second(first, second) => Some(Line::Three(first, second, value)),
    }
}

// Whether nothing has come of the line.
#[tactic(auto, unfolding(crate::specs::Reading::at_start, crate::specs::Reading::unbegun))]
pub fn nothing(r: Option<Reading>) -> bool
    ensures { result ≡ at_start r }
{
    match r {
        Some(
            Reading {
                ended: Ended::NoneYet,
                value: None,
            },
        ) => true,
        _ => false,
    }
}
