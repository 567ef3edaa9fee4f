// The one loop that writes.
ghost use Rattle.std.specs.Prelude.{◌≡◌, ◌+◌, ◌≤◌, length};
ghost use Rattle.writing.specs.Written.{Put, Tried};
ghost use Rattle.phrases.specs.Pieces.{room_to};
ghost use Rattle.bench_write.specs.Texts.{said_text, text_under, longest_of};
ghost use Rattle.bench_write.specs.Pieces.{piece_of, pieces_of};

use crate::said::{Said, piece_at, shape_of};
use phrases::put_piece;
use writing::{has_room, least, put_text};

// All its pieces, which are so many.
fn put_pieces(said: Said, n: u64, out: &mut [u8], at: usize) -> usize
    requires n_value { n ≡ pieces_of said }
    requires said_in_bounds { at + room_to (piece_of said) (pieces_of said) ≤ length out.old }
    ensures { Put out.old at (said_text said) out.new result }
{
    let mut next = at;
    for i in 0..n {
        next = put_piece(piece_at(said, i), out, next);
    }
    next
}

// What is said, under a name where one is shown, if there is room for the longest of its kind; the place after it.
pub fn put_said(said: Said, name: &[u8], out: &mut [u8], at: usize) -> usize
    ensures { Tried (longest_of said) out.old at (text_under said name.now) out.new result }
{
    let shape = shape_of(said);
    if has_room(out.len(), at, shape.longest) {
        let after = put_text(&name[..least(name.len(), shape.shown)], out, at);
        return put_pieces(said, shape.pieces, out, after);
    }
    at
}
