// Numbers as upper-case digits.
ghost use Rattle.std.specs.Prelude.{◌≡◌, suc, ◌+◌, ◌^◌, ◌≤◌, ◌<◌, length};
ghost use Rattle.digits.specs.Digits.{glyph_of, digits};
ghost use Rattle.writing.specs.Decimal.{places_of, decimal};
ghost use Rattle.writing.specs.Written.{Put, Tried};

use crate::room::has_room;

// The byte of a digit.
#[tactic(auto, unfolding(digits::specs::Digits::glyph_of))]
fn glyph(d: u64) -> u8
    requires { d < 16 }
    ensures { result ≡ glyph_of d }
{
    if d < 10 {
        b'0' + d as u8
    } else {
        b'A' + (d - 10) as u8
    }
}

// In how many decimal digits a number is written, up to `more` more than one.
fn places(n: u64, more: usize) -> usize
    requires { suc more < 2 ^ 64 }
    ensures { result ≡ places_of more n }
{
    let mut rest = n;
    for k in 0..more {
        if rest < 10 {
            return k + 1;
        }
        rest /= 10;
    }
    more + 1
}

// In how many decimal digits a word is written.
pub fn width(n: u64) -> usize
    ensures { result ≡ places_of 19 n }
{
    places(n, 19)
}

// The last k digits of n, from the last to the first; the place after them.
fn spell(n: u64, base: u64, k: usize, out: &mut [u8], at: usize) -> usize
    requires base_nonzero { 0 < base }
    requires base_bound { base ≤ 16 }
    requires k_in_bounds { at + k ≤ length out.old }
    ensures { Put out.old at (digits base k n) out.new result }
{
    let mut rest = n;
    for i in (0..k).rev() {
        out[at + i] = glyph(rest % base);
        rest /= base;
    }
    at + k
}

// The sixteen hexadecimal digits of a word.
pub fn put_word(n: u64, out: &mut [u8], at: usize) -> usize
    ensures { Tried 16 out.old at (digits 16 16 n) out.new result }
{
    if has_room(out.len(), at, 16) {
        return spell(n, 16, 16, out, at);
    }
    at
}

// The last k decimal digits of a number.
pub fn put_places(n: u64, k: usize, out: &mut [u8], at: usize) -> usize
    ensures { Tried k out.old at (digits 10 k n) out.new result }
{
    if has_room(out.len(), at, k) {
        return spell(n, 10, k, out, at);
    }
    at
}

// A number in decimal, with no zero in front and up to `more` digits more than one.
pub fn put_decimal(n: u64, more: usize, out: &mut [u8], at: usize) -> usize
    ensures { Tried (suc more) out.old at (decimal more n) out.new result }
{
    if more < out.len() {
        if has_room(out.len(), at, more + 1) {
            return spell(n, 10, places(n, more), out, at);
        }
        return at;
    }
    at
}
