// The listing as its input comes: what is held of a line that has not ended, and the replies to those that have. The flag
// `profile` says who answers: the bench profile's entries (document 02, 2026-14), or the base's.
ghost use Rattle.std.specs.Prelude.{◌≡◌, ◌+◌, ◌*◌, ◌≤◌, length, take};
ghost use Rattle.io.specs.Counts.{IsPrefixLen};
ghost use Rattle.listing_write.specs.Text.{longest_reply};
ghost use Rattle.writing.specs.Written.{Put};
ghost use Rattle.listing_stream.specs.Stream.{header_text, listing_byte, listing_from, said_last, held_length, Lists};

use crate::replies::put_reply;
use listing_read::LONGEST;
use writing::{OUT, least, push, put_text};

// So many bytes are held of a line: one more than the longest good line has, so that a longer one is told by its length.
pub const HELD: usize = LONGEST + 1;

// So many bytes are read at once: the replies to them fit, if each ends a line.
pub const BLOCK: usize = 1024;

// How many bytes are held now, and how many were written.
#[derive(Clone, Copy)]
pub struct Progress {
    pub held: usize,
    pub used: usize,
}

// The header, at the start of `out`.
pub fn begin(profile: bool, out: &mut [u8; OUT]) -> usize
    ensures put { Put out.old 0 (header_text profile) out.new result }
    ensures prefix_len { IsPrefixLen result out.new }
{
    if profile {
        return put_text(b"profile 1\n", out, 0);
    }
    put_text(b"carlson 2\n", out, 0)
}

fn step(profile: bool, b: u8, held: &mut [u8], n: usize, out: &mut [u8], used: usize) -> Progress
    requires held_len { length held.old ≡ held_length }
    requires n_le_held_length { n ≤ held_length }
    requires longest_reply_in_bounds { used + longest_reply ≤ length out.old }
    ensures lists { Lists (listing_byte profile (take n held.old) b)
        held.new out.old used out.new result }
    ensures held_le_held_length { result.held ≤ held_length }
{
    if b == b'\n' {
        return Progress {
            held: 0,
            used: put_reply(profile, &held[..n], out, used),
        };
    }
    Progress {
        held: push(held, n, b),
        used: used,
    }
}

// Feeds the first `size` bytes.
fn feed_all(
    profile: bool,
    block: &[u8],
    size: usize,
    held: &mut [u8],
    held_before: usize,
    out: &mut [u8],
) -> Progress
    requires size_in_bounds { size ≤ length block.now }
    requires held_len { length held.old ≡ held_length }
    requires held_before_le_held_length { held_before ≤ held_length }
    requires size_in_bounds_2 { longest_reply * size ≤ length out.old }
    ensures lists { Lists (listing_from profile (take held_before held.old) (take size block.now))
        held.new out.old 0 out.new result }
    ensures held_le_held_length { result.held ≤ held_length }
    ensures used_bound { result.used ≤ longest_reply * size }
{
    let mut n = held_before;
    let mut used: usize = 0;
    for i in 0..size {
        let fed = step(profile, block[i], held, n, out, used);
        n = fed.held;
        used = fed.used;
    }
    Progress { held: n, used }
}

// Feeds the block's first bytes, all `size` of them: the replies to the lines that end there are put at the start of `out`, and
// `held` keeps what has not ended. A size beyond the block counts as all of it, and n above HELD as HELD.
pub fn feed(
    profile: bool,
    block: &[u8; BLOCK],
    size: usize,
    held: &mut [u8; HELD],
    n: usize,
    out: &mut [u8; OUT],
) -> Progress
    ensures lists { Lists (listing_from profile (take n held.old) (take size block.now))
        held.new out.old 0 out.new result }
    ensures held_le_held_length { result.held ≤ held_length }
    ensures prefix_len { IsPrefixLen result.used out.new }
{
    feed_all(
        profile,
        block,
        least(BLOCK, size),
        held,
        least(HELD, n),
        out,
    )
}

fn last(profile: bool, held: &[u8], n: usize, out: &mut [u8]) -> usize
    requires n_in_bounds { n ≤ length held.now }
    requires longest_reply_in_bounds { longest_reply ≤ length out.old }
    ensures put { Put out.old 0 (said_last profile (take n held.now)) out.new result }
    ensures upper_bound { result ≤ longest_reply }
{
    if n == 0 {
        return 0;
    }
    put_reply(profile, &held[..n], out, 0)
}

// The reply to what is held at the input's end, at the start of `out`.
pub fn finish(profile: bool, held: &[u8; HELD], n: usize, out: &mut [u8; OUT]) -> usize
    ensures put { Put out.old 0 (said_last profile (take n held.now)) out.new result }
    ensures prefix_len { IsPrefixLen result out.new }
{
    last(profile, held, least(HELD, n), out)
}
