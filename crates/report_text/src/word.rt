// A line's words: the function's name, and what its number is called.
ghost use Rattle.std.specs.Prelude.{◌+◌, ◌≤◌, length};
ghost use Rattle.writing.specs.Written.{Put};
ghost use Rattle.unpack_stream.specs.Text.{name_text};
ghost use Rattle.report_text.specs.Text.{slot_key, refused_key};

use unpack_stream::letter;
use writing::{put_decimal, put_text};

const LAST: usize = 27; // the largest number that is tallied

const ROUNDS: usize = 28;

// The function's name. (`unpack_stream` has the same: one for both would ask another crate for room.)
pub fn put_name(function: u64, out: &mut [u8], at: usize) -> usize
    requires { at + 3 ≤ length out.old }
    ensures { Put out.old at (name_text function) out.new result }
{
    if function == 6 {
        return put_text(b"CEL", out, at);
    }
    out[at] = b'R';
    out[at + 1] = letter(function);
    at + 2
}

fn put_refused(number: u64, out: &mut [u8], at: usize) -> usize
    requires { at + 12 ≤ length out.old }
    ensures { Put out.old at (refused_key number) out.new result }
{
    let said = put_text(b" refused ", out, at);
    let next = put_decimal(number, 1, out, said);
    out[next] = b' ';
    next + 1
}

pub fn put_key(i: usize, out: &mut [u8], at: usize) -> usize
    requires { at + 12 ≤ length out.old }
    ensures { Put out.old at (slot_key i) out.new result }
{
    if i == 0 {
        return put_text(b" calls ", out, at);
    }
    if i <= LAST {
        return put_refused(i as u64, out, at);
    }
    if i == ROUNDS {
        return put_text(b" rounds ", out, at);
    }
    put_text(b" most ", out, at)
}
