// The three kinds of lines, without their end. What there is no room for is left out whole, and the place stays.
ghost use Rattle.std.specs.Prelude.{◌+◌, ◌≤◌, length};
ghost use Rattle.exact.specs.Exact.{held_by};
ghost use Rattle.writing.specs.Written.{Put, Tried};
ghost use Rattle.report_text.specs.Text.{slot_line, slot_room, sign_text, exact_line, exact_room, sum_line, sum_room};

use crate::hex::put_hex;
use crate::word::{put_key, put_name};
use binary64::split;
use exact::{below_zero, rounded, size_into};
use writing::{has_room, put_decimal, put_text, put_word};

const SLOT: usize = 35;

const EXACT: usize = 555;

const SUM: usize = 24;

// A word's.
pub fn put_slot(function: u64, i: usize, n: u64, out: &mut [u8], at: usize) -> usize
    ensures { Tried slot_room out.old at (slot_line function i n) out.new result }
{
    if has_room(out.len(), at, SLOT) {
        let name = put_name(function, out, at);
        let key = put_key(i, out, name);
        return put_decimal(n, 19, out, key);
    }
    at
}

fn put_sign(sum: &[u64], out: &mut [u8], at: usize) -> usize
    requires { at + 1 ≤ length out.old }
    ensures { Put out.old at (sign_text (held_by sum.now)) out.new result }
{
    if below_zero(sum) {
        out[at] = b'-';
        return at + 1;
    }
    at
}

// An exact sum's. Words in another number than a sum's hold nothing.
pub fn put_exact(function: u64, sum: &[u64], out: &mut [u8], at: usize) -> usize
    ensures { Tried exact_room out.old at (exact_line function (held_by sum.now))
        out.new result }
{
    if has_room(out.len(), at, EXACT) {
        let name = put_name(function, out, at);
        let key = put_text(b" exact ", out, name);
        let sign = put_sign(sum, out, key);
        let mut size = [0u64; 34];
        size_into(sum, &mut size);
        return put_hex(&size, out, sign);
    }
    at
}

// The rounded sum's.
pub fn put_sum(function: u64, sum: &[u64], out: &mut [u8], at: usize) -> usize
    ensures { Tried sum_room out.old at (sum_line function (held_by sum.now)) out.new result }
{
    if has_room(out.len(), at, SUM) {
        let name = put_name(function, out, at);
        let key = put_text(b" sum ", out, name);
        return put_word(split(rounded(sum)), out, key);
    }
    at
}
