// What is said, by its pieces.
ghost use Rattle.std.specs.Prelude.{◌≡◌};
ghost use Rattle.bench_write.specs.Pieces.{piece_of, shape_of};

use crate::tallies::{Tally, count_piece, tallies_piece};
use crate::written_pieces::{bad_piece, decrement_piece, no_verdict_piece, weighed_piece};
use drag::Verdict;
use phrases::Piece;
use refusals::Refusal;

// No answer to a line is longer, its name counted, and no summary.
const REPLY: usize = 88;

const SUMMARY: usize = 145;

// A name has no more bytes.
const NAME: usize = 32;

// To a knee, to two peaks, to a bad line; and at the input's end.
#[derive(Clone, Copy)]
pub enum Said {
    Weighed(Verdict),
    NoVerdict(Refusal),
    Decrement(f64),
    NoDecrement(Refusal),
    Bad,
    Tallies(Tally),
}

pub fn piece_at(said: Said, i: u64) -> Piece
    ensures { result ≡ piece_of said i }
{
    match said {
        Said::Weighed(verdict) => weighed_piece(verdict, i),
        Said::NoVerdict(refusal) => no_verdict_piece(refusal.number() as u64, i),
        Said::Decrement(value) => decrement_piece(value, i),
        Said::NoDecrement(refusal) => count_piece(3, refusal.number() as u64, i),
        Said::Bad => bad_piece(i),
        Said::Tallies(tally) => tallies_piece(tally, i),
    }
}

// How many pieces there are, how many bytes of a name are shown before them, and how much room is asked for.
#[derive(Clone, Copy)]
pub struct Shape {
    pub pieces: u64,
    pub shown: usize,
    pub longest: usize,
}

pub fn shape_of(said: Said) -> Shape
    ensures { result ≡ shape_of said }
{
    match said {
        Said::Weighed(_) => Shape {
            pieces: 8,
            shown: NAME,
            longest: REPLY,
        },
        Said::NoVerdict(_) => Shape {
            pieces: 4,
            shown: NAME,
            longest: REPLY,
        },
        Said::Decrement(_) => Shape {
            pieces: 7,
            shown: 0,
            longest: REPLY,
        },
        Said::NoDecrement(_) => Shape {
            pieces: 3,
            shown: 0,
            longest: REPLY,
        },
        Said::Bad => Shape {
            pieces: 2,
            shown: 0,
            longest: REPLY,
        },
        Said::Tallies(_) => Shape {
            pieces: 15,
            shown: 0,
            longest: SUMMARY,
        },
    }
}
