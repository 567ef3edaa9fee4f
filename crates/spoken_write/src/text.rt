// The one loop that writes.
ghost use Rattle.std.specs.Prelude.{◌≡◌, cond, [], ◌+◌, ◌≤◌, length};
ghost use Rattle.writing.specs.Written.{Put, Tried};
ghost use Rattle.decimal_text.specs.Text.{text_of};
ghost use Rattle.spoken_parts.specs.Held.{all_words, span_of, Whole};
ghost use Rattle.spoken_parts.specs.Texts.{shown_byte, given_text, line_text, reply_text, longest_line, longest_reply};
ghost use Rattle.spoken_parts.specs.Parts.{part_text, part_room};

use decimal_text::put_number;
use phrases::put_piece;
use spoken_parts::{Form, PARTS, Part, Said, part_of, speaks};
use writing::{has_room, least, put_text};

// As many bytes of a call are shown as are held of a line.
const SHOWN: usize = 128;

const LONGEST_LINE: usize = 127;

const LONGEST_REPLY: usize = 256;

fn put_span(all: &[u8], from: usize, to: usize, out: &mut [u8], at: usize) -> usize
    ensures { Whole (span_of all.now from to) out.old at out.new result }
{
    let end = least(to, all.len());
    let start = least(from, end);
    put_text(&all[start..end], out, at)
}

// All words of every line, one after the other.
fn put_words(from: usize, to: usize, out: &mut [u8], at: usize) -> usize
    ensures { Whole (span_of all_words from to) out.old at out.new result }
{
    put_span(
        b"closedinfiniteagmduplicationjointtaylorreductionloop: an argument is NaN: an argument is below zero\
            : too many zeros: a zero that must not be: RD's z is zero or less: no finite result: the mean's rounds are spent\
            : a fifth nested RJ call: several infinite arguments: a or b is infinite: wrong sign of p\
            bad line: no such functionno number at place number too large at place too long argument wanted arguments wanted\
            call\tvalue\trounds\troad\trescalings\trefused\tbits   rounds , rescaled refused \t\t\t\t\n",
        from,
        to,
        out,
        at,
    )
}

// That an f64's text has room in what is asked for, is known where the f64 is an argument.
fn put_value(x: f64, out: &mut [u8], at: usize) -> usize
    ensures tried { Tried 24 out.old at (text_of x) out.new result }
    ensures x_len_bound { length (text_of x) ≤ 24 }
{
    put_number(x, out, at)
}

fn put_part(part: Part, out: &mut [u8], at: usize) -> usize
    ensures tried { Tried (part_room part) out.old at (part_text part) out.new result }
    ensures part_len_bound { length (part_text part) ≤ part_room part }
{
    match part {
        Part::Words(from, to) => put_words(from, to, out, at),
        Part::Value(x) => put_value(x, out, at),
        Part::Piece(piece) => put_piece(piece, out, at),
    }
}

fn put_parts(said: Said, form: Form, out: &mut [u8], at: usize) -> usize
    requires { at + longest_line ≤ length out.old }
    ensures { Put out.old at (line_text said form) out.new result }
{
    let mut next = at;
    for i in 0..PARTS {
        next = put_part(part_of(said, form, i), out, next);
    }
    next
}

// The line, if there is room for the longest; the place after it.
pub fn put_line(said: Said, form: Form, out: &mut [u8], at: usize) -> usize
    ensures { Tried longest_line out.old at (line_text said form) out.new result }
{
    if has_room(out.len(), at, LONGEST_LINE) {
        return put_parts(said, form, out, at);
    }
    at
}

// A tab would end the column, and a carriage return the row.
#[tactic(auto, unfolding(spoken_parts::specs::Texts::shown_byte))]
fn shown(b: u8) -> u8
    ensures { result ≡ shown_byte b }
{
    match b {
        b'\t' | b'\r' => b' ',
        _ => b,
    }
}

// The call as it was given, and a tab.
fn put_given(line: &[u8], out: &mut [u8], at: usize) -> usize
    requires { at + 129 ≤ length out.old }
    ensures { Put out.old at (given_text line.now) out.new result }
{
    let n = least(line.len(), SHOWN);
    for i in 0..n {
        out[at + i] = shown(line[i]);
    }
    out[at + n] = b'\t';
    at + n + 1
}

// The call where it is shown.
fn put_call(table: bool, line: &[u8], out: &mut [u8], at: usize) -> usize
    requires { at + 129 ≤ length out.old }
    ensures { Put out.old at (cond table (given_text line.now) []) out.new result }
{
    if table {
        return put_given(line, out, at);
    }
    at
}

// What is said to a line, in a row after the call, if there is room for the longest; the place after it.
pub fn put_reply(said: Said, form: Form, line: &[u8], out: &mut [u8], at: usize) -> usize
    ensures { Tried longest_reply out.old at (reply_text said form line.now) out.new result }
{
    if has_room(out.len(), at, LONGEST_REPLY) {
        if speaks(said) {
            let after = put_call(form.table, line, out, at);
            return put_parts(said, form, out, after);
        }
        return at;
    }
    at
}
