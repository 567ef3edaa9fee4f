// The bytes as they come: what is held of a job that is not whole, and the lines of those that are. A refusal ends it.
ghost use Rattle.std.specs.Prelude.{◌≡◌, None, ◌+◌, ◌*◌, ◌≤◌, ◌<◌, length, take};
ghost use Rattle.io.specs.Counts.{IsPrefixLen};
ghost use Rattle.unpack_stream.specs.Text.{line_room};
ghost use Rattle.unpack_stream.specs.Unpack.{holding, try_of, unpack_byte, unpack_from, ahead_at, left_over, held_length};
ghost use Rattle.unpack_stream.specs.Unpack.{Unpacks, Turns};

use crate::text::put_job_text;
use packed::{Got, read_job};
use refusals::Refusal;
use writing::{OUT, least, push};

// So many bytes are held of a job: no job is longer.
pub const HELD: usize = 64;

// So many bytes are read at once: there is room for a line after each.
pub const BLOCK: usize = 512;

// How many bytes are held now, how many were written, how many bytes the whole jobs took, and the refusal that ended it.
#[derive(Clone, Copy)]
pub struct Progress {
    pub held: usize,
    pub used: usize,
    pub taken: usize,
    pub stop: Option<Refusal>,
}

// What some bytes led to, and the place after them.
#[derive(Clone, Copy)]
struct Turned {
    fed: Progress,
    next: usize,
}

// More is waited for.
fn waiting(n: usize, used: usize) -> Progress
    ensures { result ≡ record { held = n; used = used; taken = 0; stop = None } }
{
    Progress {
        held: n,
        used,
        taken: 0,
        stop: None,
    }
}

// A try at what is held.
fn tried(held: &[u8], out: &mut [u8], used: usize) -> Progress
    requires { used + line_room ≤ length out.old }
    ensures unpacks { Unpacks (try_of held.now) held.now out.old used out.new result }
    ensures held_in_bounds { result.held ≤ length held.now }
{
    match read_job(held, 0) {
        Ok(Some(got)) => {
            let job = got.job;
            Progress {
                held: 0,
                used: put_job_text(job, out, used),
                taken: held.len(),
                stop: None,
            }
        }
        Ok(None) => waiting(held.len(), used),
        Err(refusal) => {
            if refusal == Refusal::ListCut {
                return waiting(held.len(), used);
            }
            Progress {
                held: 0,
                used,
                taken: 0,
                stop: Some(refusal),
            }
        }
    }
}

fn step(b: u8, held: &mut [u8], n: usize, out: &mut [u8], used: usize) -> Progress
    requires held_len { length held.old ≡ held_length }
    requires n_le_held_length { n ≤ held_length }
    requires line_room_in_bounds { used + line_room ≤ length out.old }
    ensures unpacks { Unpacks (unpack_byte (holding (take n held.old)) b)
        held.new out.old used out.new result }
    ensures held_le_held_length { result.held ≤ held_length }
{
    let m = push(held, n, b);
    tried(&held[..m], out, used)
}

// The job at a place, where none is held.
fn ahead(bytes: &[u8], i: usize, n: usize) -> Result<Option<Got>, Refusal>
    ensures { result ≡ ahead_at bytes.now i n }
{
    if n == 0 {
        return read_job(bytes, i);
    }
    Ok(None)
}

// A job that lies whole in the bytes is read there; of any other a byte is taken.
fn turn(bytes: &[u8], i: usize, held: &mut [u8], n: usize, out: &mut [u8], used: usize) -> Turned
    requires i_in_bounds { i < length bytes.now }
    requires held_len { length held.old ≡ held_length }
    requires n_le_held_length { n ≤ held_length }
    requires line_room_in_bounds { used + line_room ≤ length out.old }
    ensures { Turns bytes.now i (take n held.old)
        held.new out.old used out.new result }
{
    let Ok(Some(got)) = ahead(bytes, i, n) else {
        return Turned {
            fed: step(bytes[i], held, n, out, used),
            next: i + 1,
        };
    };
    let job = got.job;
    let next = got.next;
    Turned {
        fed: Progress {
            held: 0,
            used: put_job_text(job, out, used),
            taken: next - i,
            stop: None,
        },
        next,
    }
}

// Feeds all bytes, up to a refusal. A turn says itself where the next one begins, so the place is no index to count.
fn feed_all(bytes: &[u8], held: &mut [u8], n: usize, out: &mut [u8]) -> Progress
    requires held_len { length held.old ≡ held_length }
    requires n_le_held_length { n ≤ held_length }
    requires bytes_in_bounds { line_room * length bytes.now ≤ length out.old }
    ensures unpacks { Unpacks (unpack_from (holding (take n held.old)) bytes.now)
        held.new out.old 0 out.new result }
    ensures held_le_held_length { result.held ≤ held_length }
    ensures used_bound { result.used ≤ line_room * length bytes.now }
{
    let mut all = waiting(n, 0);
    let mut i = 0;
    while i < bytes.len() {
        let turned = turn(bytes, i, held, all.held, out, all.used);
        let fed = turned.fed;
        all = Progress {
            taken: all.taken + fed.taken,
            ..fed
        };
        if all.stop.is_some() {
            return all;
        }
        i = turned.next;
    }
    all
}

fn feed_part(block: &[u8], size: usize, held: &mut [u8], n: usize, out: &mut [u8]) -> Progress
    requires size_in_bounds { size ≤ length block.now }
    requires held_len { length held.old ≡ held_length }
    requires n_le_held_length { n ≤ held_length }
    requires size_in_bounds_2 { line_room * size ≤ length out.old }
    ensures unpacks { Unpacks (unpack_from (holding (take n held.old)) (take size block.now))
        held.new out.old 0 out.new result }
    ensures held_le_held_length { result.held ≤ held_length }
    ensures used_bound { result.used ≤ line_room * size }
{
    feed_all(&block[..size], held, n, out)
}

// Feeds the block's first bytes: the lines of the jobs that end there are put at the start of `out`, up to a refusal, and
// `held` keeps what is not whole. A size beyond the block counts as all of it, and n above HELD as HELD.
pub fn feed(
    block: &[u8; BLOCK],
    size: usize,
    held: &mut [u8; HELD],
    n: usize,
    out: &mut [u8; OUT],
) -> Progress
    ensures unpacks { Unpacks (unpack_from (holding (take n held.old)) (take size block.now))
        held.new out.old 0 out.new result }
    ensures held_le_held_length { result.held ≤ held_length }
    ensures prefix_len { IsPrefixLen result.used out.new }
{
    feed_part(block, least(BLOCK, size), held, least(HELD, n), out)
}

// What the input's end means, with so many bytes held: a job that was cut, where there are any.
pub fn left_over(n: usize) -> Option<Refusal>
    ensures { result ≡ left_over n }
{
    if n == 0 {
        return None;
    }
    Some(Refusal::ListCut)
}
