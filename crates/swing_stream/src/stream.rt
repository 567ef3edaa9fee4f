// The input as it comes, in constant memory: each line is read byte by byte and answered at its end.
ghost use Rattle.std.specs.Prelude.{◌+◌, ◌*◌, ◌≤◌, length, take};
ghost use Rattle.io.specs.Counts.{IsPrefixLen};
ghost use Rattle.writing.specs.Written.{Put};
ghost use Rattle.swing_write.specs.Replies.{longest_swing, longest_total};
ghost use Rattle.swing_stream.specs.Stream.{line_end, swing_byte, swing_from, said_at_end, said_last, longest_last, Swings};

use crate::lines::{Kind, State, after_line, put_line};
use millimetres::{at_end, measure, nothing_measured};
use swing_read::close;
use swing_write::put_total;
use writing::{OUT, least, put_text};

// So many bytes are read at once: the replies to them fit, if each ends a line.
pub const BLOCK: usize = 1024;

// The state now, and how many bytes were written.
#[derive(Clone, Copy)]
pub struct Progress {
    pub state: State,
    pub used: usize,
}

// The line that is read so far ends here.
fn line_end(s: State, out: &mut [u8], used: usize) -> Progress
    requires { used + longest_swing ≤ length out.old }
    ensures { Swings (line_end s) out.old used out.new result }
{
    let line = close(at_end(s.reading));
    Progress {
        state: after_line(s, line),
        used: put_line(s, line, out, used),
    }
}

fn byte(b: u8, s: State, out: &mut [u8], used: usize) -> Progress
    requires { used + longest_swing ≤ length out.old }
    ensures { Swings (swing_byte s b) out.old used out.new result }
{
    if b == b'\n' {
        return line_end(s, out, used);
    }
    Progress {
        state: State {
            reading: measure(s.reading, b),
            ..s
        },
        used,
    }
}

fn feed_all(part: &[u8], s: State, out: &mut [u8]) -> Progress
    requires { longest_swing * length part.now ≤ length out.old }
    ensures swings { Swings (swing_from s part.now) out.old 0 out.new result }
    ensures used_bound { result.used ≤ longest_swing * length part.now }
{
    let mut state = s;
    let mut used: usize = 0;
    for b in part {
        let told = byte(*b, state, out, used);
        state = told.state;
        used = told.used;
    }
    Progress { state, used }
}

// Feeds the block's first bytes, all `size` of them: the replies to the lines that end there are put at the start of `out`. A
// size beyond the block counts as all of it.
pub fn feed(block: &[u8; BLOCK], size: usize, s: State, out: &mut [u8; OUT]) -> Progress
    ensures swings { Swings (swing_from s (take size block.now)) out.old 0 out.new result }
    ensures prefix_len { IsPrefixLen result.used out.new }
{
    feed_all(&block[..least(BLOCK, size)], s, out)
}

// What is said once the last line has ended: the step log's total.
#[tactic(auto, unfolding(crate::specs::Stream::said_at_end, crate::specs::Stream::said_ending))]
fn closing(s: State, out: &mut [u8], used: usize) -> usize
    requires { used + longest_total ≤ length out.old }
    ensures { Put out.old used (said_at_end s) out.new result }
{
    match s.kind {
        Kind::Periods => used,
        Kind::Steps(None) => put_text(b"bad line\n", out, used),
        Kind::Steps(Some(log)) => put_total(log.sum, out, used),
    }
}

fn last(s: State, out: &mut [u8]) -> usize
    requires { longest_last ≤ length out.old }
    ensures put { Put out.old 0 (said_last s) out.new result }
    ensures upper_bound { result ≤ longest_last }
{
    if nothing_measured(s.reading) {
        return closing(s, out, 0);
    }
    let told = line_end(s, out, 0);
    closing(told.state, out, told.used)
}

// The reply to what is left at the input's end, at the start of `out`.
pub fn finish(s: State, out: &mut [u8; OUT]) -> usize
    ensures put { Put out.old 0 (said_last s) out.new result }
    ensures prefix_len { IsPrefixLen result out.new }
{
    last(s, out)
}
