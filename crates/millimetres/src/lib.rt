// A line as it comes whose first two numbers may be lengths in millimetres, as `250.5 mm`: they are read as the whole micrometres
// that they are. What is finer than a micrometre makes the line bad; nothing is rounded.
#![tactic(auto)]

ghost use Rattle.std.specs.Prelude.{◌≡◌};
ghost use Rattle.millimetres.specs.Measured.{
  told,
  lengths_from,
  plain_from,
  bad_of,
  place_after,
  thousand_of,
  may_be_length,
  length_after,
  whole_after,
  held_after,
  places_end,
  place_more,
  places_after,
  letter_after,
  done_after,
  byte_measured,
  at_end,
  last_begun,
  unread,
};

use swing_read::{Ended, Reading, figure, longer, start, step};

// The point of a length, or so many places behind it.
#[derive(Clone, Copy)]
pub enum Places {
    Point,
    One,
    Two,
    Three,
}

// Which part of a number the next byte comes behind.
#[derive(Clone, Copy)]
pub enum Part {
    // nothing, or the figures of a whole number
    Figures,
    // a blank behind a whole number: `mm` may come, or the next number
    Held,
    Behind(Places),
    // the blank behind the places: `mm` must come
    Unit,
    // the first m
    Half,
    // the second
    Done,
    // a line without lengths, from its start to its end
    Plain,
}

// What is known of a line that has not ended, its numbers in micrometres.
#[derive(Clone, Copy)]
pub struct Measured {
    pub part: Part,
    pub reading: Option<Reading>,
}

fn so(part: Part, reading: Option<Reading>) -> Measured
    ensures { result ≡ told part reading }
{
    Measured { part, reading }
}

// A line whose first two numbers are lengths.
#[tactic(auto, unfolding(crate::specs::Measured::lengths_from))]
pub fn lengths() -> Measured
    ensures { result ≡ lengths_from }
{
    so(Part::Figures, Some(start()))
}

// A line without lengths.
#[tactic(auto, unfolding(crate::specs::Measured::plain_from))]
pub fn plain() -> Measured
    ensures { result ≡ plain_from }
{
    so(Part::Plain, Some(start()))
}

#[tactic(auto, unfolding(crate::specs::Measured::bad_of))]
fn bad() -> Measured
    ensures { result ≡ bad_of }
{
    so(Part::Figures, None)
}

// A figure behind the point is one more of the number, also where a zero alone stands before it.
#[tactic(auto, unfolding(crate::specs::Measured::place_after))]
fn place(r: Option<Reading>, b: u8) -> Option<Reading>
    ensures { result ≡ place_after r b }
{
    longer(r?, figure(b)?)
}

// Whole millimetres in micrometres.
#[tactic(auto, unfolding(crate::specs::Measured::thousand_of))]
fn thousand(r: Option<Reading>) -> Option<Reading>
    ensures { result ≡ thousand_of r }
{
    place(place(place(r, b'0'), b'0'), b'0')
}

// Whether what is read of a number is of one of the first two.
#[tactic(auto, unfolding(crate::specs::Measured::may_be_length, crate::specs::Measured::early))]
fn may_be_length(r: Option<Reading>) -> bool
    ensures { result ≡ may_be_length r }
{
    match r {
        Some(
            Reading {
                ended: Ended::NoneYet | Ended::First(_),
                value: Some(_),
            },
        ) => true,
        _ => false,
    }
}

#[tactic(auto, unfolding(crate::specs::Measured::length_after))]
fn length(r: Option<Reading>, b: u8) -> Measured
    ensures { result ≡ length_after r b }
{
    if b == b' ' {
        return so(Part::Held, r);
    }
    if b == b'.' {
        return so(Part::Behind(Places::Point), r);
    }
    so(Part::Figures, step(r, b))
}

#[tactic(auto, unfolding(crate::specs::Measured::whole_after))]
fn whole(r: Option<Reading>, b: u8) -> Measured
    ensures { result ≡ whole_after r b }
{
    if may_be_length(r) {
        length(r, b)
    } else {
        so(Part::Figures, step(r, b))
    }
}

#[tactic(auto, unfolding(crate::specs::Measured::held_after))]
fn held(r: Option<Reading>, b: u8) -> Measured
    ensures { result ≡ held_after r b }
{
    if b == b'm' {
        so(Part::Half, thousand(r))
    } else {
        so(Part::Figures, step(step(r, b' '), b))
    }
}

// The places that three lack are zeros.
#[tactic(auto, unfolding(crate::specs::Measured::places_end))]
fn places_end(places: Places, r: Option<Reading>) -> Measured
    ensures { result ≡ places_end places r }
{
    match places {
        Places::Point => bad(),
        Places::One => so(Part::Unit, place(place(r, b'0'), b'0')),
        Places::Two => so(Part::Unit, place(r, b'0')),
        Places::Three => so(Part::Unit, r),
    }
}

// A fourth place and those behind it are finer than a micrometre unless they are zeros.
#[tactic(auto, unfolding(crate::specs::Measured::place_more))]
fn place_more(places: Places, r: Option<Reading>, b: u8) -> Measured
    ensures { result ≡ place_more places r b }
{
    match places {
        Places::Point => so(Part::Behind(Places::One), place(r, b)),
        Places::One => so(Part::Behind(Places::Two), place(r, b)),
        Places::Two => so(Part::Behind(Places::Three), place(r, b)),
        Places::Three => {
            if b == b'0' {
                so(Part::Behind(Places::Three), r)
            } else {
                bad()
            }
        }
    }
}

#[tactic(auto, unfolding(crate::specs::Measured::places_after))]
fn place_byte(places: Places, r: Option<Reading>, b: u8) -> Measured
    ensures { result ≡ places_after places r b }
{
    if b == b' ' {
        places_end(places, r)
    } else {
        place_more(places, r, b)
    }
}

#[tactic(auto, unfolding(crate::specs::Measured::letter_after))]
fn letter(next: Part, r: Option<Reading>, b: u8) -> Measured
    ensures { result ≡ letter_after next r b }
{
    if b == b'm' { so(next, r) } else { bad() }
}

#[tactic(auto, unfolding(crate::specs::Measured::done_after))]
fn done(r: Option<Reading>, b: u8) -> Measured
    ensures { result ≡ done_after r b }
{
    if b == b' ' {
        so(Part::Figures, step(r, b' '))
    } else {
        bad()
    }
}

// One byte more of the line.
#[tactic(auto, unfolding(crate::specs::Measured::byte_measured, crate::specs::Measured::byte_behind))]
pub fn measure(m: Measured, b: u8) -> Measured
    ensures { result ≡ byte_measured m b }
{
    let r = m.reading;
    match m.part {
        Part::Figures => whole(r, b),
        Part::Held => held(r, b),
        Part::Behind(places) => place_byte(places, r, b),
        Part::Unit => letter(Part::Half, r, b),
        Part::Half => letter(Part::Done, r, b),
        Part::Done => done(r, b),
        Part::Plain => so(Part::Plain, step(r, b)),
    }
}

// What is read of the line, where it ends here: no number is open but a whole one or one with its `mm`.
#[tactic(auto, unfolding(crate::specs::Measured::at_end, crate::specs::Measured::end_behind))]
pub fn at_end(m: Measured) -> Option<Reading>
    ensures { result ≡ at_end m }
{
    match m.part {
        Part::Figures | Part::Done | Part::Plain => m.reading,
        Part::Held | Part::Behind(_) | Part::Unit | Part::Half => None,
    }
}

// Whether the third number has a figure.
#[tactic(auto, unfolding(crate::specs::Measured::last_begun, crate::specs::Measured::third_begun, crate::specs::Measured::third))]
pub fn last_begun(m: Measured) -> bool
    ensures { result ≡ last_begun m }
{
    match m.reading {
        Some(
            Reading {
                ended: Ended::Second(_, _),
                value: Some(_),
            },
        ) => true,
        _ => false,
    }
}

// Whether nothing has come of the line.
#[tactic(auto, unfolding(crate::specs::Measured::unread, crate::specs::Measured::unread_behind))]
pub fn nothing_measured(m: Measured) -> bool
    ensures { result ≡ unread m }
{
    match m.part {
        Part::Figures | Part::Plain => swing_read::nothing(m.reading),
        _ => false,
    }
}
