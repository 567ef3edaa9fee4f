// Why there is no answer: one enum for every entry, program and text, and its numbers for other programs (document 01, "Numbers
// for no"; from 11 on document 02; the last three are ours). docs/REFUSALS.md says which function gives which, and in what order.
#![tactic(auto)]

ghost use Rattle.std.specs.Prelude.{◌≡◌};
ghost use Rattle.refusals.specs.declared.Refusal.{Refusal};
ghost use Rattle.refusals.specs.Numbers.{refusal_number, code_of};

#[derive(Clone, Copy, Debug, PartialEq, Eq)]
pub enum Refusal {
    // an argument is NaN
    NanGiven,
    // an argument is below zero that must not be
    BelowZero,
    // more than one of RF's or RJ's x, y, z is zero; RD's x and y are
    Zeros,
    // RC's y, RJ's p, or cel's kc or p is zero
    ZeroGiven,
    // RD's z is zero or less
    ZNotAbove,
    // RF, RD, RJ or cel ends without a finite result
    NoResult,
    // RC does
    RcNoResult,
    // RG does
    RgNoResult,
    // the cap on RD's or RG's mean is spent
    AgmSpent,
    // a fifth nested call of RJ would be needed
    TooDeep,
    // the swing's length or gravity is out of range
    OutOfRange,
    // the swing's release height is
    Height,
    // the step log's total would pass 2^64 - 1
    SumTooLarge,
    // a work list stops inside a job
    ListCut,
    // a work list has a number over 64 bits, or not in its shortest form
    NumberBad,
    // a job's function is none that work lists know
    UnknownFunction,
    // a job is longer than what is left of the buffer
    NoRoom,
    // a report would hold more than 2^32 - 1 calls
    TooMany,
    // more than one of cel's arguments is infinite
    SeveralInfinite,
    // cel's a or b is infinite
    AOrBInfinite,
    // RJ's p has the wrong sign for this entry
    WrongSign,
    // a table's claims and its work list's jobs differ in number
    NumbersDiffer,
    // an argument is outside the bench profile
    OutsideProfile,
    // a peak is not from 1 to 2^53
    Amplitude,
    // a decimal number is beyond the largest f64
    TooLarge,
    // a text is no decimal number
    NoNumber,
}

impl Refusal {
    // Its number for other programs.
    pub fn number(self) -> u32
        ensures { result ≡ refusal_number self }
    {
        match self {
            Refusal::NanGiven => 1,
            Refusal::BelowZero => 2,
            Refusal::Zeros => 3,
            Refusal::ZeroGiven => 4,
            Refusal::ZNotAbove => 5,
            Refusal::NoResult => 6,
            Refusal::RcNoResult => 7,
            Refusal::RgNoResult => 8,
            Refusal::AgmSpent => 9,
            Refusal::TooDeep => 10,
            Refusal::OutOfRange => 11,
            Refusal::Height => 12,
            Refusal::SumTooLarge => 13,
            Refusal::ListCut => 14,
            Refusal::NumberBad => 15,
            Refusal::UnknownFunction => 16,
            Refusal::NoRoom => 17,
            Refusal::TooMany => 18,
            Refusal::SeveralInfinite => 19,
            Refusal::AOrBInfinite => 20,
            Refusal::WrongSign => 21,
            Refusal::NumbersDiffer => 22,
            Refusal::OutsideProfile => 23,
            Refusal::Amplitude => 24,
            Refusal::TooLarge => 25,
            Refusal::NoNumber => 26,
        }
    }
}

// What a refusal may be told as: the refusal itself, or its number.
pub trait Told: Copy {
    ghost told: { Refusal → Self };

    fn of(refusal: Refusal) -> Self
        ensures { result ≡ told refusal };
}

impl Told for Refusal {
    ghost told = { λ r. r };

    fn of(same: Refusal) -> Self {
        same
    }
}

impl Told for u32 {
    ghost told = { refusal_number };

    fn of(refusal: Refusal) -> Self {
        refusal.number()
    }
}

// 0 where it was done, or the refusal's number: what a function for C returns.
pub fn code(done: Result<(), Refusal>) -> u32
    ensures { result ≡ code_of done }
{
    match done {
        Ok(()) => 0,
        Err(refusal) => refusal.number(),
    }
}
