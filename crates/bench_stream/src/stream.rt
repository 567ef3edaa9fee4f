// The input as it comes, in constant memory: each line is read byte by byte, its name held, and answered at its end.
ghost use Rattle.std.specs.Prelude.{◌≡◌, ◌+◌, ◌*◌, ◌≤◌, length, take};
ghost use Rattle.io.specs.Counts.{IsPrefixLen};
ghost use Rattle.writing.specs.Fed.{Fed};
ghost use Rattle.writing.specs.Written.{Put};
ghost use Rattle.bench_write.specs.Texts.{longest_reply};
ghost use Rattle.bench_stream.specs.Lines.{held_length, under, line_end, bench_byte, bench_from};
ghost use Rattle.bench_stream.specs.Stream.{input_end, said_last, Benches};

use crate::lines::{State, after_byte, after_line, held_after};
use bench_read::unbegun;
use bench_replies::reply_to;
use bench_write::{Said, put_said};
use writing::{OUT, least};

// So many bytes are held of a name: one more than the longest has, so that a longer one is told by its length.
pub const HELD: usize = 33;

// So many bytes are read at once: the replies to them fit, if each ends a line.
pub const BLOCK: usize = 512;

// The state now, how many bytes of the name are held, and how many were written.
#[derive(Clone, Copy)]
pub struct Progress {
    pub state: State,
    pub held: usize,
    pub used: usize,
}

// The line that is read so far ends here.
fn line_end(s: State, held: &[u8], n: usize, out: &mut [u8], used: usize) -> Progress
    requires n_in_bounds { n ≤ length held.now }
    requires longest_reply_in_bounds { used + longest_reply ≤ length out.old }
    ensures benches { Benches (line_end (under s (take n held.now))) held.now out.old used
        out.new result }
    ensures held_value { result.held ≡ 0 }
{
    let reply = reply_to(s.decays, s.row, n);
    Progress {
        state: after_line(s, reply),
        held: 0,
        used: put_said(reply, &held[..n], out, used),
    }
}

// How many bytes of the name are held, and how many were written.
#[derive(Clone, Copy)]
struct Place {
    held: usize,
    used: usize,
}

// One byte more, the state in its place.
fn byte(b: u8, s: &mut State, held: &mut [u8], n: usize, out: &mut [u8], used: usize) -> Place
    requires held_len { length held.old ≡ held_length }
    requires n_le_held_length { n ≤ held_length }
    requires longest_reply_in_bounds { used + longest_reply ≤ length out.old }
    ensures fed { Fed (bench_byte (under s.old (take n held.old)) b)
        (under s.new (take result.held held.new)) out.old used out.new result.used 0 }
    ensures held_le_held_length { result.held ≤ held_length }
{
    if b == b'\n' {
        let told = line_end(*s, held, n, out, used);
        *s = told.state;
        return Place {
            held: told.held,
            used: told.used,
        };
    }
    let after = held_after(*s, b, held, n);
    after_byte(s, b);
    Place { held: after, used }
}

fn feed_all(part: &[u8], s: State, held: &mut [u8], held_before: usize, out: &mut [u8]) -> Progress
    requires held_len { length held.old ≡ held_length }
    requires held_before_le_held_length { held_before ≤ held_length }
    requires part_in_bounds { longest_reply * length part.now ≤ length out.old }
    ensures benches { Benches (bench_from (under s (take held_before held.old)) part.now)
        held.new out.old 0 out.new result }
    ensures held_le_held_length { result.held ≤ held_length }
    ensures used_bound { result.used ≤ longest_reply * length part.now }
{
    let mut state = s;
    let mut n = held_before;
    let mut used: usize = 0;
    for b in part {
        let told = byte(*b, &mut state, held, n, out, used);
        n = told.held;
        used = told.used;
    }
    Progress {
        state,
        held: n,
        used,
    }
}

// Feeds the block's first bytes, all `size` of them: the replies to the lines that end there are put at the start of `out`, and
// `held` keeps the name of the line that has not ended. A size beyond the block counts as all of it, and n above HELD as HELD.
pub fn feed(
    block: &[u8; BLOCK],
    size: usize,
    s: State,
    held: &mut [u8; HELD],
    n: usize,
    out: &mut [u8; OUT],
) -> Progress
    ensures benches { Benches (bench_from (under s (take n held.old)) (take size block.now))
        held.new out.old 0 out.new result }
    ensures held_le_held_length { result.held ≤ held_length }
    ensures prefix_len { IsPrefixLen result.used out.new }
{
    feed_all(&block[..least(BLOCK, size)], s, held, least(HELD, n), out)
}

// A line that has begun ends with the input.
fn ended(s: State, held: &[u8], n: usize, out: &mut [u8]) -> Progress
    requires n_in_bounds { n ≤ length held.now }
    requires longest_reply_in_bounds { longest_reply ≤ length out.old }
    ensures { Benches (input_end (under s (take n held.now))) held.now out.old 0
        out.new result }
{
    if unbegun(s.row) {
        return Progress {
            state: s,
            held: n,
            used: 0,
        };
    }
    line_end(s, held, n, out, 0)
}

// The reply to what is left at the input's end, and the tallies if `summary` says so, at the start of `out`.
pub fn finish(summary: bool, s: State, held: &[u8; HELD], n: usize, out: &mut [u8; OUT]) -> usize
    ensures put { Put out.old 0 (said_last summary (under s (take n held.now))) out.new result }
    ensures prefix_len { IsPrefixLen result out.new }
{
    let told = ended(s, held, least(HELD, n), out);
    if summary {
        return put_said(Said::Tallies(told.state.tally), b"", out, told.used);
    }
    told.used
}
