// The lines as they come: what is held of a line that has not ended, and the jobs of those that have. A bad line ends it.
ghost use Rattle.std.specs.Prelude.{◌≡◌, false, [], ◌+◌, ◌*◌, ◌≤◌, length, take};
ghost use Rattle.io.specs.Counts.{IsPrefixLen};
ghost use Rattle.listing_read.specs.Lines.{call_of};
ghost use Rattle.pack_stream.specs.Pack.{holding, line_end, pack_byte, pack_from, pack_last, held_length, job_room, Packs};

use crate::jobs::put_call;
use listing_read::{LONGEST, call_of};
use writing::{OUT, least, push};

// So many bytes are held of a line: one more than the longest good line has, so that a longer one is told by its length.
pub const HELD: usize = LONGEST + 1;

// So many bytes are read at once: there is room for a job after each.
pub const BLOCK: usize = 1024;

// How many bytes are held now, how many were written, how many lines have ended, and whether the last of them was bad.
#[derive(Clone, Copy)]
pub struct Progress {
    pub held: usize,
    pub used: usize,
    pub lines: usize,
    pub bad: bool,
}

// Nothing yet, with n bytes held.
fn nothing(n: usize) -> Progress
    ensures { result ≡ record { held = n; used = 0; lines = 0; bad = false } }
{
    Progress {
        held: n,
        used: 0,
        lines: 0,
        bad: false,
    }
}

// A line that has ended.
fn ended(line: &[u8], out: &mut [u8], used: usize) -> Progress
    requires { used + job_room ≤ length out.old }
    ensures packs { Packs (line_end (call_of line.now)) [] out.old used out.new result }
    ensures held_value { result.held ≡ 0 }
{
    match call_of(line) {
        Some(call) => Progress {
            held: 0,
            used: put_call(call, out, used),
            lines: 1,
            bad: false,
        },
        None => Progress {
            held: 0,
            used,
            lines: 1,
            bad: true,
        },
    }
}

fn step(b: u8, held: &mut [u8], n: usize, out: &mut [u8], used: usize) -> Progress
    requires held_len { length held.old ≡ held_length }
    requires n_le_held_length { n ≤ held_length }
    requires job_room_in_bounds { used + job_room ≤ length out.old }
    ensures packs { Packs (pack_byte (holding (take n held.old)) b)
        held.new out.old used out.new result }
    ensures held_le_held_length { result.held ≤ held_length }
{
    if b == b'\n' {
        return ended(&held[..n], out, used);
    }
    Progress {
        held: push(held, n, b),
        used,
        lines: 0,
        bad: false,
    }
}

// Feeds the first `size` bytes, up to a bad line.
fn feed_all(block: &[u8], size: usize, held: &mut [u8], n: usize, out: &mut [u8]) -> Progress
    requires size_in_bounds { size ≤ length block.now }
    requires held_len { length held.old ≡ held_length }
    requires n_le_held_length { n ≤ held_length }
    requires size_in_bounds_2 { job_room * size ≤ length out.old }
    ensures packs { Packs (pack_from (holding (take n held.old)) (take size block.now))
        held.new out.old 0 out.new result }
    ensures held_le_held_length { result.held ≤ held_length }
    ensures used_bound { result.used ≤ job_room * size }
{
    let mut all = nothing(n);
    for i in 0..size {
        let fed = step(block[i], held, all.held, out, all.used);
        all = Progress {
            lines: all.lines + fed.lines,
            ..fed
        };
        if all.bad {
            return all;
        }
    }
    all
}

// Feeds the block's first bytes: the jobs of the lines that end there are put at the start of `out`, up to a bad line, and
// `held` keeps what has not ended. A size beyond the block counts as all of it, and n above HELD as HELD.
pub fn feed(
    block: &[u8; BLOCK],
    size: usize,
    held: &mut [u8; HELD],
    n: usize,
    out: &mut [u8; OUT],
) -> Progress
    ensures packs { Packs (pack_from (holding (take n held.old)) (take size block.now))
        held.new out.old 0 out.new result }
    ensures held_le_held_length { result.held ≤ held_length }
    ensures prefix_len { IsPrefixLen result.used out.new }
{
    feed_all(block, least(BLOCK, size), held, least(HELD, n), out)
}

fn last(held: &[u8], n: usize, out: &mut [u8]) -> Progress
    requires n_in_bounds { n ≤ length held.now }
    requires job_room_in_bounds { job_room ≤ length out.old }
    ensures packs { Packs (pack_last (holding (take n held.now))) [] out.old 0 out.new result }
    ensures used_le_job_room { result.used ≤ job_room }
{
    if n == 0 {
        return nothing(0);
    }
    ended(&held[..n], out, 0)
}

// The job of what is held at the input's end, at the start of `out`.
pub fn finish(held: &[u8; HELD], n: usize, out: &mut [u8; OUT]) -> Progress
    ensures packs { Packs (pack_last (holding (take n held.now))) [] out.old 0 out.new result }
    ensures prefix_len { IsPrefixLen result.used out.new }
{
    last(held, least(HELD, n), out)
}
