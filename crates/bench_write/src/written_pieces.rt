// The pieces of an answer to a line.
ghost use Rattle.std.specs.Prelude.{◌≡◌};
ghost use Rattle.bench_write.specs.Texts.{sign_of, ticks_of};
ghost use Rattle.bench_write.specs.Pieces.{passes_piece, weighed_piece, no_verdict_piece, minus_piece, sized_piece};
ghost use Rattle.bench_write.specs.Pieces.{decrement_piece, bad_piece};

use binary64::split;
use drag::Verdict;
use parted::{parted, rounded};
use phrases::Piece;

// How many nanoseconds a second has.
const BILLION: u64 = 1_000_000_000;

// How many units of 10^-12 make up 1.
const TRILLION: u64 = 1_000_000_000_000;

const SIGN: u64 = 0x8000_0000_0000_0000; // the sign's weight in a pattern

const NEWLINE: u64 = 0x0a;

const BLANK: u64 = 0x20;

const POINT: u64 = 0x2e;

const MINUS: u64 = 0x2d;

const PLUS: u64 = 0x2b;

fn passes_piece(passes: bool) -> Piece
    ensures { result ≡ passes_piece passes }
{
    if passes {
        return Piece::Letters(0x20_7061_7373_20, 6); // pass
    }
    Piece::Letters(0x20_6472_6167_7320, 7) // drags
}

fn sign(quicker: bool) -> u64
    ensures { result ≡ sign_of quicker }
{
    if quicker {
        return MINUS;
    }
    PLUS
}

// The word, the excess in seconds with its sign, the period's digits.
pub fn weighed_piece(v: Verdict, i: u64) -> Piece
    ensures { result ≡ weighed_piece v i }
{
    match i {
        0 => passes_piece(v.passes),
        1 => Piece::Letters(sign(v.quicker), 1),
        2 => Piece::Number(v.excess / BILLION),
        3 => Piece::Letters(POINT, 1),
        4 => Piece::Places(v.excess, 9),
        5 => Piece::Letters(BLANK, 1),
        6 => Piece::Bits(split(v.period)),
        _ => Piece::Letters(NEWLINE, 1),
    }
}

// After the name: ` refused`, a blank, the number.
pub fn no_verdict_piece(number: u64, i: u64) -> Piece
    ensures { result ≡ no_verdict_piece number i }
{
    match i {
        0 => Piece::Letters(0x20_7265_6675_7365_64, 8),
        1 => Piece::Letters(BLANK, 1),
        2 => Piece::Number(number),
        _ => Piece::Letters(NEWLINE, 1),
    }
}

fn minus_piece(bits: u64) -> Piece
    ensures { result ≡ minus_piece bits }
{
    if SIGN <= bits {
        return Piece::Letters(MINUS, 1);
    }
    Piece::Letters(MINUS, 0)
}

fn ticks(value: f64) -> u64
    ensures { result ≡ ticks_of value }
{
    rounded(parted(value, TRILLION))
}

// The pattern, and so many units of 10^-12 under its sign.
fn sized_piece(bits: u64, t: u64, i: u64) -> Piece
    ensures { result ≡ sized_piece bits t i }
{
    match i {
        0 => Piece::Bits(bits),
        1 => Piece::Letters(BLANK, 1),
        2 => minus_piece(bits),
        3 => Piece::Number(t / TRILLION),
        4 => Piece::Letters(POINT, 1),
        5 => Piece::Places(t, 12),
        _ => Piece::Letters(NEWLINE, 1),
    }
}

pub fn decrement_piece(value: f64, i: u64) -> Piece
    ensures { result ≡ decrement_piece value i }
{
    sized_piece(split(value), ticks(value), i)
}

// `bad line`
pub fn bad_piece(i: u64) -> Piece
    ensures { result ≡ bad_piece i }
{
    if i == 0 {
        return Piece::Letters(0x6261_6420_6c69_6e65, 8);
    }
    Piece::Letters(NEWLINE, 1)
}
