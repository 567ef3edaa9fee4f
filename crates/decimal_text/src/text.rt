// The text of an f64, from a place of a lent slice on; the place after it.
ghost use Rattle.std.specs.Prelude.{◌≡◌, true, ◌+◌, ◌≤◌, ◌<◌, length};
ghost use Rattle.std.specs.Float.{binary64};
ghost use Rattle.std.specs.Float.Ieee.{lt, of_bits};
ghost use Rattle.rounding.specs.Cut.{infinity};
ghost use Rattle.writing.specs.Written.{Put, Tried};
ghost use Rattle.decimal_text.specs.Shape.{places_text, power_text, shape_text};
ghost use Rattle.decimal_text.specs.Text.{sign_text, text_of};
ghost use Rattle.decimal_text.specs.Plain.{plain_shape, plain_text};

use crate::shape::{Shape, laid_out};
use binary64::{abs, split};
use decimal_write::shortest;
use writing::{has_room, put_places, put_text, width};

// No text is longer.
pub const LONGEST: usize = 24;

const TOP: u64 = 0x8000_0000_0000_0000; // the sign's weight in a pattern, a zero's too; no NaN has it

const INFINITY: u64 = 0x7ff0_0000_0000_0000; // the pattern of the infinity

fn put_sign(below: bool, out: &mut [u8], at: usize) -> usize
    requires { at + length (sign_text below) ≤ length out.old }
    ensures { Put out.old at (sign_text below) out.new result }
{
    if below {
        out[at] = b'-';
        return at + 1;
    }
    at
}

// The point, and the places after it with the zeros that they begin with.
fn put_point(s: Shape, out: &mut [u8], at: usize) -> usize
    requires { at + length (places_text s) ≤ length out.old }
    ensures { Put out.old at (places_text s) out.new result }
{
    if s.places == 0 {
        return at;
    }
    out[at] = b'.';
    put_places(s.part, s.places as usize, out, at + 1)
}

fn put_power(s: Shape, out: &mut [u8], at: usize) -> usize
    requires { (s.power < 1000) × (at + length (power_text s) ≤ length out.old) }
    ensures { Put out.old at (power_text s) out.new result }
{
    if s.power == 0 {
        return at;
    }
    out[at] = b'e';
    let digits = put_sign(s.below, out, at + 1);
    put_places(s.power, width(s.power), out, digits)
}

fn put_shape(s: Shape, out: &mut [u8], at: usize) -> usize
    requires { (s.power < 1000) × (at + length (shape_text s) ≤ length out.old) }
    ensures { Put out.old at (shape_text s) out.new result }
{
    let point = put_places(s.whole, width(s.whole), out, at);
    let power = put_point(s, out, point);
    put_power(s, out, power)
}

fn plain_shape(x: f64) -> Shape
    requires { lt x (of_bits binary64 infinity) ≡ true }
    ensures { result ≡ plain_shape x }
{
    if 0.0 < x {
        let short = shortest(x);
        return laid_out(short.d, short.t);
    }
    Shape {
        whole: 0,
        places: 0,
        part: 0,
        below: false,
        power: 0,
    }
}

// x without its sign.
fn put_plain(x: f64, out: &mut [u8], at: usize) -> usize
    requires { at + 23 ≤ length out.old }
    ensures { Put out.old at (plain_text x) out.new result }
{
    if x < f64::from_bits(INFINITY) {
        return put_shape(plain_shape(x), out, at);
    }
    if x != x {
        return put_text(b"nan", out, at);
    }
    put_text(b"inf", out, at)
}

// `nan`, `inf`, `-0`, or the shortest decimal that reads back, if there is room for the longest.
pub fn put_number(x: f64, out: &mut [u8], at: usize) -> usize
    ensures { Tried 24 out.old at (text_of x) out.new result }
{
    if has_room(out.len(), at, LONGEST) {
        let size = put_sign(TOP <= split(x), out, at);
        return put_plain(abs(x), out, size);
    }
    at
}
