// What is known of a line that has not ended.
ghost use Rattle.std.specs.Prelude.{◌≡◌};
ghost use Rattle.bench_read.specs.Rows.{fresh_at, open_at, times_from, row_from, named, staged_of, field_at, swing_fed};
ghost use Rattle.bench_read.specs.Rows.{times_fed};
ghost use Rattle.bench_read.specs.Rows.{swing_blank, blank_after, other_after, row_after};
ghost use Rattle.bench_read.specs.declared.rows.Field.TheVariants.{Name, Times};

use millimetres::{Measured, last_begun, lengths, measure, plain};

// How far the line is.
#[derive(Clone, Copy)]
pub enum Stage {
    NothingYet,
    Begun,
    // a carriage return came last
    Returned,
    // and something after that, which makes the line bad
    Spoilt,
}

// Where the line is: in the name, in the swing, or behind it.
#[derive(Clone, Copy)]
pub enum Field {
    Name,
    Swing,
    Times,
}

// Beside these, what is read of `L h g`, and of the two numbers that come last.
#[derive(Clone, Copy)]
pub struct Row {
    pub stage: Stage,
    pub field: Field,
    pub swing: Measured,
    pub times: Measured,
}

// Whether no carriage return has come.
#[tactic(auto, unfolding(crate::specs::Rows::open_at))]
fn open(stage: Stage) -> bool
    ensures { result ≡ open_at stage }
{
    match stage {
        Stage::NothingYet | Stage::Begun => true,
        Stage::Returned | Stage::Spoilt => false,
    }
}

// A knee's last two numbers are times; two peaks are lengths.
#[tactic(auto, unfolding(crate::specs::Rows::times_from))]
fn times_from(field: Field) -> Measured
    ensures { result ≡ times_from field }
{
    match field {
        Field::Name => plain(),
        Field::Swing | Field::Times => lengths(),
    }
}

#[tactic(auto, unfolding(crate::specs::Rows::row_from))]
fn row_from(field: Field) -> Row
    ensures { result ≡ row_from field }
{
    Row {
        stage: Stage::NothingYet,
        field,
        swing: lengths(),
        times: times_from(field),
    }
}

pub fn knee_start() -> Row
    ensures { result ≡ row_from Name }
{
    row_from(Field::Name)
}

// Peaks have no name and no swing: what comes are the last two numbers.
pub fn peaks_start() -> Row
    ensures { result ≡ row_from Times }
{
    row_from(Field::Times)
}

// Whether nothing has come of the line.
#[tactic(auto, unfolding(crate::specs::Rows::fresh_at))]
pub fn unbegun(r: Row) -> bool
    ensures { result ≡ fresh_at r.stage }
{
    match r.stage {
        Stage::NothingYet => true,
        Stage::Begun | Stage::Returned | Stage::Spoilt => false,
    }
}

// Whether the byte is one of the name.
#[tactic(auto, unfolding(crate::specs::Rows::named, crate::specs::Rows::in_name))]
pub fn naming(r: Row, b: u8) -> bool
    ensures { result ≡ named r b }
{
    match r.field {
        Field::Name => open(r.stage) && b != b'\r' && b != b' ',
        Field::Swing | Field::Times => false,
    }
}

#[tactic(auto, unfolding(crate::specs::Rows::staged_of))]
fn staged(r: &mut Row, stage: Stage)
    ensures { r.new ≡ staged_of r.old stage }
{
    r.stage = stage;
}

#[tactic(auto, unfolding(crate::specs::Rows::field_at))]
fn field_at(r: &mut Row, field: Field)
    ensures { r.new ≡ field_at r.old field }
{
    r.stage = Stage::Begun;
    r.field = field;
}

#[tactic(auto, unfolding(crate::specs::Rows::swing_fed))]
fn swing_fed(r: &mut Row, b: u8)
    ensures { r.new ≡ swing_fed r.old b }
{
    r.stage = Stage::Begun;
    r.swing = measure(r.swing, b);
}

#[tactic(auto, unfolding(crate::specs::Rows::times_fed))]
fn times_fed(r: &mut Row, b: u8)
    ensures { r.new ≡ times_fed r.old b }
{
    r.stage = Stage::Begun;
    r.times = measure(r.times, b);
}

// The swing ends behind its third number, which is no length.
#[tactic(auto, unfolding(crate::specs::Rows::swing_blank))]
fn swing_blank(r: &mut Row)
    ensures { r.new ≡ swing_blank r.old }
{
    if last_begun(r.swing) {
        field_at(r, Field::Times)
    } else {
        swing_fed(r, b' ')
    }
}

// The first blank ends the name.
#[tactic(auto, unfolding(crate::specs::Rows::blank_after, crate::specs::Rows::blank_in))]
fn blank(r: &mut Row)
    ensures { r.new ≡ blank_after r.old }
{
    match r.field {
        Field::Name => field_at(r, Field::Swing),
        Field::Swing => swing_blank(r),
        Field::Times => times_fed(r, b' '),
    }
}

#[tactic(auto, unfolding(crate::specs::Rows::other_after, crate::specs::Rows::other_in))]
fn other(r: &mut Row, b: u8)
    ensures { r.new ≡ other_after r.old b }
{
    match r.field {
        Field::Name => field_at(r, Field::Name),
        Field::Swing => swing_fed(r, b),
        Field::Times => times_fed(r, b),
    }
}

// One byte more of the line, in its place: a row is long, and was copied for each byte.
#[tactic(auto, unfolding(crate::specs::Rows::row_after))]
pub fn feed_row(r: &mut Row, b: u8)
    ensures { r.new ≡ row_after r.old b }
{
    if open(r.stage) {
        match b {
            b'\r' => staged(r, Stage::Returned),
            b' ' => blank(r),
            _ => other(r, b),
        }
    } else {
        staged(r, Stage::Spoilt)
    }
}

// The same as a value.
pub fn row_step(r: Row, b: u8) -> Row
    ensures { result ≡ row_after r b }
{
    let mut after = r;
    feed_row(&mut after, b);
    after
}
