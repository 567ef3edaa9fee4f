// What is said to a line.
ghost use Rattle.std.specs.Prelude.{◌≡◌};
ghost use Rattle.spoken_parts.specs.Texts.{speaks};

use carlson::answer::Found;
use refusals::Refusal;

// The argument `table` asks for rows, `hex` for rows with the values' bits; without one a line is for people.
#[derive(Clone, Copy)]
pub struct Form {
    pub table: bool,
    pub hex: bool,
}

// Why a line is no call: how many arguments are wanted, or the place, from 1.
#[derive(Clone, Copy)]
pub enum Bad {
    NoFunction,
    Wanted(u64),
    NoNumber(u64),
    TooLarge(u64),
    TooLong,
}

#[derive(Clone, Copy)]
pub enum Said {
    // there is no word in the line
    Nothing,
    // the table's first line
    Heading,
    // an entry's value
    Value(Found),
    // a leaf's
    Leaf(f64),
    Refused(Refusal),
    Bad(Bad),
}

#[tactic(auto, unfolding(crate::specs::Texts::speaks))]
pub fn speaks(said: Said) -> bool
    ensures { result ≡ speaks said }
{
    !matches!(said, Said::Nothing)
}
