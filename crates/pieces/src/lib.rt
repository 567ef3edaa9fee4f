// The two series' sums by short polynomials, one for each sixty_fourth of the range: enclosure's `value`, in code.
#![tactic(auto)]

mod row;

ghost use Rattle.std.specs.Prelude.{◌≡◌};
ghost use Rattle.enclosure.specs.Pieces.{euler, odd};
ghost use Rattle.pieces.specs.Row.{value_or_zero};

use crate::row::horner;
use pieces_rows::{euler_row, odd_row};

const PIECE: u64 = 0x400_0000_0000_0000; // 2 ^ 58, a sixty_fourth

// Each sum tests first whether the table has the piece: then the compiler holds no twelve zeros ready for one that it lacks.

// Euler's sum at x, in parts of 2 ^ -63, where x is in parts of 2 ^ -64.
pub fn euler(x: u64) -> u64
    ensures { result ≡ value_or_zero euler x }
{
    let piece = x / PIECE;
    if piece < 33 {
        return horner(x % PIECE * 4, euler_row(piece));
    }
    0
}

// The sum of T(s)/s at x = s², likewise.
pub fn odd(x: u64) -> u64
    ensures { result ≡ value_or_zero odd x }
{
    let piece = x / PIECE;
    if piece < 24 {
        return horner(x % PIECE * 4, odd_row(piece));
    }
    0
}
