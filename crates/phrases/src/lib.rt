// A text in pieces. What a piece is, is decided in functions of numbers alone; bytes are written here, in one place for all.
#![tactic(auto)]

ghost use Rattle.std.specs.Prelude.{◌+◌, ◌≤◌, length};
ghost use Rattle.writing.specs.Written.{Put, Tried};
ghost use Rattle.phrases.specs.Pieces.{letters, piece_text, room_of};

use writing::{has_room, put_decimal, put_places, put_word};

#[derive(Clone, Copy)]
pub enum Piece {
    // So many bytes, the last ones of a number, which has up to eight: `a` and `b` are 0x6162 and 2.
    Letters(u64, usize),
    // A number in decimal, no zero in front.
    Number(u64),
    // Its last so many decimal digits.
    Places(u64, usize),
    // A pattern's sixteen digits.
    Bits(u64),
}

// The bytes, from the last to the first; the place after them. `writing` has a loop like this for digits: each has its own text.
fn spell(n: u64, k: usize, out: &mut [u8], at: usize) -> usize
    requires { at + k ≤ length out.old }
    ensures { Put out.old at (letters k n) out.new result }
{
    let mut rest = n;
    for i in (0..k).rev() {
        out[at + i] = (rest % 256) as u8;
        rest /= 256;
    }
    at + k
}

fn put_letters(n: u64, k: usize, out: &mut [u8], at: usize) -> usize
    ensures { Tried k out.old at (letters k n) out.new result }
{
    if has_room(out.len(), at, k) {
        return spell(n, k, out, at);
    }
    at
}

// Writes a piece, if there is room for the longest of its form; the place after it.
#[tactic(auto, unfolding(crate::specs::Pieces::piece_text, crate::specs::Pieces::room_of))]
pub fn put_piece(piece: Piece, out: &mut [u8], at: usize) -> usize
    ensures { Tried (room_of piece) out.old at (piece_text piece) out.new result }
{
    match piece {
        Piece::Letters(n, k) => put_letters(n, k, out, at),
        Piece::Number(n) => put_decimal(n, 19, out, at),
        Piece::Places(n, k) => put_places(n, k, out, at),
        Piece::Bits(n) => put_word(n, out, at),
    }
}
