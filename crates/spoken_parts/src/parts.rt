// Which part of a line comes next, as a function of numbers: the words are named by their places in the text of `text.rt`.
ghost use Rattle.std.specs.Prelude.{◌≡◌};
ghost use Rattle.refusals.specs.Numbers.{refusal_number};
ghost use Rattle.spoken_parts.specs.Parts.{
  bad_end,
  bad_number,
  bad_part,
  bad_words,
  before_end,
  bits_part,
  cells_part,
  column_part,
  found_part,
  heading_part,
  hex_part,
  leaf_part,
  nothing_part,
  number_part,
  part_of,
  reason_part,
  refused_part,
  rescaled_count,
  rescaled_part,
  road_part,
  tab_part,
  told_part,
  wanted_part,
};

use crate::said::{Bad, Form, Said};
use binary64::split;
use carlson::answer::{Found, Road};
use phrases::Piece;
use refusals::Refusal;

#[derive(Clone, Copy)]
pub enum Part {
    // from a place of the text to another
    Words(usize, usize),
    Value(f64),
    Piece(Piece),
}

// A line has at most so many parts.
pub const PARTS: u64 = 11;

fn nothing() -> Part
    ensures { result ≡ nothing_part }
{
    Part::Words(0, 0)
}

fn tab() -> Part
    ensures { result ≡ tab_part }
{
    Part::Words(487, 488)
}

fn number(n: u64) -> Part
    ensures { result ≡ number_part n }
{
    Part::Piece(Piece::Number(n))
}

// A tab in a row, words for people.
#[tactic(auto, unfolding(crate::specs::Parts::told_part))]
fn told(table: bool, from: usize, to: usize) -> Part
    ensures { result ≡ told_part table from to }
{
    if table {
        return tab();
    }
    Part::Words(from, to)
}

// The columns up to the refusal.
#[tactic(auto, unfolding(crate::specs::Parts::cells_part))]
fn empty_cells(table: bool, from: usize, to: usize) -> Part
    ensures { result ≡ cells_part table from to }
{
    if table {
        return Part::Words(487, 491);
    }
    Part::Words(from, to)
}

#[tactic(auto, unfolding(crate::specs::Parts::hex_part))]
fn if_hex(hex: bool) -> Part
    ensures { result ≡ hex_part hex }
{
    if hex {
        return tab();
    }
    nothing()
}

#[tactic(auto, unfolding(crate::specs::Parts::road_part))]
fn road_words(road: Road) -> Part
    ensures { result ≡ road_part road }
{
    match road {
        Road::Closed => Part::Words(0, 6), // closed
        Road::Infinite => Part::Words(6, 14), // infinite
        Road::Agm => Part::Words(14, 17), // agm
        Road::Duplication => Part::Words(17, 28), // duplication
        Road::Joint => Part::Words(28, 33), // joint
        Road::Taylor => Part::Words(33, 39), // taylor
        Road::Reduction => Part::Words(39, 48), // reduction
        Road::Loop => Part::Words(48, 52), // loop
    }
}

// docs/REFUSALS.md's words, shortened: what an entry can refuse for.
#[tactic(auto, unfolding(crate::specs::Parts::reason_part))]
fn reason(refusal: Refusal) -> Part
    ensures { result ≡ reason_part (refusal_number refusal) }
{
    match refusal {
        Refusal::NanGiven => Part::Words(52, 72), // an argument is NaN
        Refusal::BelowZero => Part::Words(72, 99), // an argument is below zero
        Refusal::Zeros => Part::Words(99, 115), // too many zeros
        Refusal::ZeroGiven => Part::Words(115, 140), // a zero that must not be
        Refusal::ZNotAbove => Part::Words(140, 164), // RD's z is zero or less
        Refusal::NoResult | Refusal::RcNoResult | Refusal::RgNoResult => Part::Words(164, 182), // no finite result
        Refusal::AgmSpent => Part::Words(182, 211), // the mean's rounds are spent
        Refusal::TooDeep => Part::Words(211, 235), // a fifth nested RJ call
        Refusal::SeveralInfinite => Part::Words(235, 263), // several infinite arguments
        Refusal::AOrBInfinite => Part::Words(263, 283), // a or b is infinite
        Refusal::WrongSign => Part::Words(283, 300), // wrong sign of p
        // no entry says these
        Refusal::OutOfRange
        | Refusal::Height
        | Refusal::SumTooLarge
        | Refusal::ListCut
        | Refusal::NumberBad
        | Refusal::UnknownFunction
        | Refusal::NoRoom
        | Refusal::TooMany
        | Refusal::NumbersDiffer
        | Refusal::OutsideProfile
        | Refusal::Amplitude
        | Refusal::TooLarge
        | Refusal::NoNumber => nothing(),
    }
}

#[tactic(auto, unfolding(crate::specs::Parts::rescaled_part))]
fn rescaled_words(table: bool, count: u32) -> Part
    ensures { result ≡ rescaled_part table count }
{
    if table {
        return tab();
    }
    if count == 0 {
        return nothing();
    }
    Part::Words(468, 479) // , rescaled
}

#[tactic(auto, unfolding(crate::specs::Parts::rescaled_count))]
fn rescaled_count(table: bool, count: u32) -> Part
    ensures { result ≡ rescaled_count table count }
{
    if table {
        return number(count as u64);
    }
    if count == 0 {
        return nothing();
    }
    number(count as u64)
}

// The last column.
#[tactic(auto, unfolding(crate::specs::Parts::bits_part))]
fn bits(hex: bool, value: f64) -> Part
    ensures { result ≡ bits_part hex value }
{
    if hex {
        return Part::Piece(Piece::Bits(split(value)));
    }
    nothing()
}

fn found_part(found: Found, form: Form, i: u64) -> Part
    ensures { result ≡ found_part found form i }
{
    let road = found.road;
    match i {
        0 => Part::Value(found.value),
        1 => told(form.table, 458, 468), // rounds
        2 => number(found.way.rounds as u64),
        3 => told(form.table, 468, 470), // a comma
        4 => road_words(road),
        5 => rescaled_words(form.table, found.way.rescalings),
        6 => rescaled_count(form.table, found.way.rescalings),
        7 => told(form.table, 0, 0),
        8 => if_hex(form.hex),
        _ => bits(form.hex, found.value),
    }
}

#[tactic(auto, unfolding(crate::specs::Parts::leaf_part))]
fn leaf_part(value: f64, form: Form, i: u64) -> Part
    ensures { result ≡ leaf_part value form i }
{
    match i {
        0 => Part::Value(value),
        1 => empty_cells(form.table, 0, 0),
        2 => if_hex(form.hex),
        3 => bits(form.hex, value),
        _ => nothing(),
    }
}

#[tactic(auto, unfolding(crate::specs::Parts::refused_part))]
fn refused_part(refusal: Refusal, form: Form, i: u64) -> Part
    ensures { result ≡ refused_part (refusal_number refusal) form i }
{
    match i {
        0 => empty_cells(form.table, 479, 487), // refused
        1 => number(refusal.number() as u64),
        2 => reason(refusal),
        3 => if_hex(form.hex),
        _ => nothing(),
    }
}

// What stands before the number of a bad line, the number, and what stands after it.
#[tactic(auto, unfolding(crate::specs::Parts::bad_words))]
fn bad_words(bad: Bad) -> Part
    ensures { result ≡ bad_words bad }
{
    match bad {
        Bad::NoFunction => Part::Words(310, 326), // no such function
        Bad::Wanted(_) => nothing(),
        Bad::NoNumber(_) => Part::Words(326, 345), // no number at place
        Bad::TooLarge(_) => Part::Words(345, 371), // number too large at place
        Bad::TooLong => Part::Words(371, 379), // too long
    }
}

#[tactic(auto, unfolding(crate::specs::Parts::bad_number))]
fn bad_number(bad: Bad) -> Part
    ensures { result ≡ bad_number bad }
{
    match bad {
        Bad::Wanted(n) | Bad::NoNumber(n) | Bad::TooLarge(n) => number(n),
        Bad::NoFunction | Bad::TooLong => nothing(),
    }
}

#[tactic(auto, unfolding(crate::specs::Parts::wanted_part))]
fn wanted(count: u64) -> Part
    ensures { result ≡ wanted_part count }
{
    if count == 1 {
        return Part::Words(379, 395); // argument wanted
    }
    Part::Words(395, 412) // arguments wanted
}

#[tactic(auto, unfolding(crate::specs::Parts::bad_end))]
fn bad_end(bad: Bad) -> Part
    ensures { result ≡ bad_end bad }
{
    match bad {
        Bad::Wanted(count) => wanted(count),
        _ => nothing(),
    }
}

#[tactic(auto, unfolding(crate::specs::Parts::bad_part))]
fn bad_part(bad: Bad, form: Form, i: u64) -> Part
    ensures { result ≡ bad_part bad form i }
{
    match i {
        0 => empty_cells(form.table, 0, 0),
        1 => Part::Words(300, 310), // bad line
        2 => bad_words(bad),
        3 => bad_number(bad),
        4 => bad_end(bad),
        5 => if_hex(form.hex),
        _ => nothing(),
    }
}

#[tactic(auto, unfolding(crate::specs::Parts::column_part))]
fn column(hex: bool) -> Part
    ensures { result ≡ column_part hex }
{
    if hex {
        return Part::Words(453, 458); // bits
    }
    nothing()
}

#[tactic(auto, unfolding(crate::specs::Parts::heading_part))]
fn heading_part(hex: bool, i: u64) -> Part
    ensures { result ≡ heading_part hex i }
{
    match i {
        0 => Part::Words(412, 453), // the columns
        1 => column(hex),
        _ => nothing(),
    }
}

fn before_end(said: Said, form: Form, i: u64) -> Part
    ensures { result ≡ before_end said form i }
{
    match said {
        Said::Nothing => nothing(),
        Said::Heading => heading_part(form.hex, i),
        Said::Value(found) => found_part(found, form, i),
        Said::Leaf(value) => leaf_part(value, form, i),
        Said::Refused(refusal) => refused_part(refusal, form, i),
        Said::Bad(bad) => bad_part(bad, form, i),
    }
}

// The i-th part of a line, of which the last is its end.
pub fn part_of(said: Said, form: Form, i: u64) -> Part
    ensures { result ≡ part_of said form i }
{
    if i == PARTS - 1 {
        return Part::Words(491, 492);
    }
    before_end(said, form, i)
}
