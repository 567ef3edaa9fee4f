// An answer to its text, a line of the listing (document 01; document 02, 2026-04).
#![tactic(auto)]

ghost use Rattle.std.specs.Prelude.{◌≡◌, false, [], ◌∷◌, ◌+◌, ◌≤◌, length};
ghost use Rattle.io.specs.Counts.{IsPrefixLen};
ghost use Rattle.calls.specs.Calls.{name_of, longest_name};
ghost use Rattle.listing_write.specs.Text.{is_cel, count_text, road_text, way_text, value_text, refusal_text, text_of};
ghost use Rattle.listing_write.specs.Text.{
  longest_count,
  longest_road,
  longest_way,
  longest_value,
  longest_refusal,
  longest_reply,
};
ghost use Rattle.writing.specs.Written.{Put, Tried};

use binary64::split;
use calls::Call;
use carlson::answer::{Answer, Found, Road};
use writing::{has_room, put_decimal, put_text, put_word};

// No reply is longer, its end counted.
pub const LONGEST: usize = 55;

// The one call whose name is not an R and a letter.
pub fn is_cel(call: Call) -> bool
    ensures { result ≡ is_cel call }
{
    match call {
        Call::Rc(_, _) => false,
        Call::Rf(_, _, _) => false,
        Call::Rd(_, _, _) => false,
        Call::Rg(_, _, _) => false,
        Call::Rj(_, _, _, _) => false,
        Call::Cel(_, _, _, _) => true,
    }
}

// The letter after the R; cel's name is another.
fn letter(call: Call) -> u8
    ensures { is_cel call ≡ false → name_of call ≡ 82 ∷ result ∷ [] }
{
    match call {
        Call::Rc(_, _) => b'C',
        Call::Rf(_, _, _) => b'F',
        Call::Rd(_, _, _) => b'D',
        Call::Rg(_, _, _) => b'G',
        Call::Rj(_, _, _, _) => b'J',
        Call::Cel(_, _, _, _) => b'L',
    }
}

fn put_name(call: Call, out: &mut [u8], at: usize) -> usize
    requires { at + longest_name ≤ length out.old }
    ensures { Put out.old at (name_of call) out.new result }
{
    if is_cel(call) {
        return put_text(b"CEL", out, at);
    }
    out[at] = b'R';
    out[at + 1] = letter(call);
    at + 2
}

// A count in decimal, at most ten digits, and the byte after it.
fn put_count(n: u32, after: u8, out: &mut [u8], at: usize) -> usize
    requires { at + longest_count ≤ length out.old }
    ensures { Put out.old at (count_text n after) out.new result }
{
    let end = put_decimal(n as u64, 9, out, at);
    out[end] = after;
    end + 1
}

// A road's word, and a blank.
fn put_road(road: Road, out: &mut [u8], at: usize) -> usize
    requires { at + longest_road ≤ length out.old }
    ensures { Put out.old at (road_text road) out.new result }
{
    match road {
        Road::Closed => put_text(b"closed ", out, at),
        Road::Infinite => put_text(b"infinite ", out, at),
        Road::Agm => put_text(b"agm ", out, at),
        Road::Duplication => put_text(b"duplication ", out, at),
        Road::Joint => put_text(b"joint ", out, at),
        Road::Taylor => put_text(b"taylor ", out, at),
        Road::Reduction => put_text(b"reduction ", out, at),
        Road::Loop => put_text(b"loop ", out, at),
    }
}

// The rounds, the road and the rescalings, to the line's end.
fn put_way(found: Found, out: &mut [u8], at: usize) -> usize
    requires { at + longest_way ≤ length out.old }
    ensures { Put out.old at (way_text found) out.new result }
{
    let road = found.road;
    let word = put_count(found.way.rounds, b' ', out, at);
    let end = put_road(road, out, word);
    put_count(found.way.rescalings, b'\n', out, end)
}

fn put_value(found: Found, out: &mut [u8], at: usize) -> usize
    requires { at + longest_value ≤ length out.old }
    ensures { Put out.old at (value_text found) out.new result }
{
    out[at] = b' ';
    let end = put_word(split(found.value), out, at + 1);
    out[end] = b' ';
    put_way(found, out, end + 1)
}

fn put_refusal(number: u32, out: &mut [u8], at: usize) -> usize
    requires { at + longest_refusal ≤ length out.old }
    ensures { Put out.old at (refusal_text number) out.new result }
{
    let end = put_text(b" refused ", out, at);
    put_count(number, b'\n', out, end)
}

// The answer's line, with its end, from `at` on; the place after it.
fn write_answer(call: Call, answer: Answer, out: &mut [u8], at: usize) -> usize
    requires { at + longest_reply ≤ length out.old }
    ensures { Put out.old at (text_of call answer) out.new result }
{
    let end = put_name(call, out, at);
    match answer {
        Ok(found) => put_value(found, out, end),
        Err(refusal) => put_refusal(refusal.number(), out, end),
    }
}

// The same where there is room for the longest line; elsewhere nothing is written, and the place stays.
pub fn put_answer(call: Call, answer: Answer, out: &mut [u8], at: usize) -> usize
    ensures { Tried longest_reply out.old at (text_of call answer) out.new result }
{
    if has_room(out.len(), at, LONGEST) {
        return write_answer(call, answer, out, at);
    }
    at
}

// The answer's line at the start of `out`, and its length.
pub fn answer_text(call: Call, answer: Answer, out: &mut [u8; LONGEST]) -> usize
    ensures put { Put out.old 0 (text_of call answer) out.new result }
    ensures prefix_len { IsPrefixLen result out.new }
{
    write_answer(call, answer, out, 0)
}
