// A reader that holds the lent bytes and a place in them. It goes by value, so a refused read leaves its place: the caller
// moves it on by the place after a job that was found. The work is `packed`'s; these are thin, since each is a proof by hand.
ghost use Rattle.std.specs.Prelude.{◌≡◌};
ghost use Rattle.packed.specs.Reading.{read_at};

use packed::{Got, read_job};
use refusals::Refusal;

#[derive(Clone, Copy)]
pub struct Reader<'a> {
    pub bytes: &'a [u8],
    pub place: usize,
}

fn read_at(bytes: &[u8], place: usize) -> Result<Option<Got>, Refusal>
    ensures { result ≡ read_at bytes.now place }
{
    read_job(bytes, place)
}

// A reader at the list's beginning.
pub fn begin<'a>(bytes: &'a [u8]) -> Reader<'a>
    ensures { (result.bytes ≡ bytes.entry) × (result.place ≡ 0) }
{
    Reader { bytes, place: 0 }
}

// The job at the reader's place, and the place after it.
pub fn next<'a>(r: Reader<'a>) -> Result<Option<Got>, Refusal>
    ensures { result ≡ read_at r.entry.bytes.now r.entry.place }
{
    read_at(r.bytes, r.place)
}

pub fn place<'a>(r: Reader<'a>) -> usize
    ensures { result ≡ r.entry.place }
{
    r.place
}

// The same bytes at another place.
pub fn moved<'a>(r: Reader<'a>, place: usize) -> Reader<'a>
    ensures { (result.bytes ≡ r.entry.bytes) × (result.place ≡ place) }
{
    Reader {
        bytes: r.bytes,
        place,
    }
}
