// Texts as they stand, and a line as it comes.
ghost use Rattle.std.specs.Prelude.{◌≡◌, ◌+◌, ◌≤◌, length, set};
ghost use Rattle.writing.specs.Written.{Put, Tried, pushed};

use crate::room::has_room;

fn write_text(text: &[u8], out: &mut [u8], at: usize) -> usize
    requires { at + length text.now ≤ length out.old }
    ensures { Put out.old at text.now out.new result }
{
    out[at..at + text.len()].copy_from_slice(text);
    at + text.len()
}

// Writes the text from `at` on, if there is room for all of it; the place after it.
pub fn put_text(text: &[u8], out: &mut [u8], at: usize) -> usize
    ensures { Tried (length text.now) out.old at text.now out.new result }
{
    if has_room(out.len(), at, text.len()) {
        return write_text(text, out, at);
    }
    at
}

// One byte more of a line, of which n bytes are held; what comes after a full `held` is lost.
pub fn push(held: &mut [u8], n: usize, b: u8) -> usize
    ensures { (held.new ≡ set held.old n b) × (result ≡ pushed n (length held.old)) }
{
    if n < held.len() {
        held[n] = b;
        return n + 1;
    }
    n
}
