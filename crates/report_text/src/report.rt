// The lines of a report, by their numbers.
ghost use Rattle.std.specs.Prelude.{◌≡◌, ◌+◌, ◌≤◌, ◌<◌, length};
ghost use Rattle.report_words.specs.Words.{report_words};
ghost use Rattle.writing.specs.Written.{Put, Tried};
ghost use Rattle.report_text.specs.Text.{header_text, header_room, line_count, left_out, line_at, line_text, line_room};

use crate::line::{put_exact, put_slot, put_sum};
use report_words::WORDS;
use writing::{has_room, put_text};

// No line is longer, with its end.
pub const ROOM: usize = 556;

pub const LINES: usize = 192;

const LAST: usize = 27; // the largest number that is tallied

const SUM: usize = 30;

// "report 1"
pub fn put_header(out: &mut [u8], at: usize) -> usize
    ensures { Tried header_room out.old at header_text out.new result }
{
    put_text(b"report 1\n", out, at)
}

// Whether the line is of a tally of 0.
fn left_out(words: &[u64], q: usize) -> bool
    requires words_len { length words.now ≡ report_words }
    requires q_lt_line_count { q < line_count }
    ensures { result ≡ left_out words.now q }
{
    let i = q % 32;
    if i < 1 {
        return false;
    }
    if LAST < i {
        return false;
    }
    words[q / 32 * 64 + i] == 0
}

fn write_line(words: &[u64], q: usize, out: &mut [u8], at: usize) -> usize
    requires words_len { length words.now ≡ report_words }
    requires q_lt_line_count { q < line_count }
    requires line_room_in_bounds { at + line_room ≤ length out.old }
    ensures { Put out.old at (line_at words.now q) out.new result }
{
    let function = (q / 32 + 1) as u64;
    let first = q / 32 * 64;
    let i = q % 32;
    if i < SUM {
        return put_slot(function, i, words[first + i], out, at);
    }
    let from = first + SUM;
    let end = from + 34;
    if i == SUM {
        return put_exact(function, &words[from..end], out, at);
    }
    put_sum(function, &words[from..end], out, at)
}

// Writes the line q with its end, if it is one of a report and not left out; the place after it.
pub fn put_line(words: &[u64], q: usize, out: &mut [u8], at: usize) -> usize
    ensures { Tried line_room out.old at (line_text words.now q) out.new result }
{
    if words.len() != WORDS {
        return at;
    }
    if q >= LINES {
        return at;
    }
    if left_out(words, q) {
        return at;
    }
    if has_room(out.len(), at, ROOM) {
        let next = write_line(words, q, out, at);
        out[next] = b'\n';
        return next + 1;
    }
    at
}
