// A job as a line of the listing's form.
ghost use Rattle.std.specs.Prelude.{◌≡◌, ◌+◌, ◌≤◌, length};
ghost use Rattle.writing.specs.Written.{Put};
ghost use Rattle.unpack_stream.specs.Text.{letter_of, name_text, argument_text, job_text, argument_room, line_room};

use packed::{Job, argument_of, arity};
use writing::{put_text, put_word};

// The second letter of the function's name; all but cel's begin with R.
#[tactic(auto, unfolding(crate::specs::Text::letter_of))]
pub fn letter(function: u64) -> u8
    ensures { result ≡ letter_of function }
{
    match function {
        1 => b'F',
        2 => b'C',
        3 => b'D',
        4 => b'G',
        _ => b'J',
    }
}

// The argument at k, where the function has one: a blank and sixteen digits.
fn put_argument(job: Job, k: usize, out: &mut [u8], at: usize) -> usize
    requires { at + argument_room ≤ length out.old }
    ensures { Put out.old at (argument_text job k) out.new result }
{
    if k < arity(job.function) {
        out[at] = b' ';
        return put_word(argument_of(job, k), out, at + 1);
    }
    at
}

// The function's name.
fn put_name(function: u64, out: &mut [u8], at: usize) -> usize
    requires { at + 3 ≤ length out.old }
    ensures { Put out.old at (name_text function) out.new result }
{
    if function == 6 {
        return put_text(b"CEL", out, at);
    }
    out[at] = b'R';
    out[at + 1] = letter(function);
    at + 2
}

// The job's line, with its end.
pub fn put_job_text(job: Job, out: &mut [u8], at: usize) -> usize
    requires { at + line_room ≤ length out.old }
    ensures { Put out.old at (job_text job) out.new result }
{
    let name = put_name(job.function, out, at);
    let one = put_argument(job, 0, out, name);
    let two = put_argument(job, 1, out, one);
    let three = put_argument(job, 2, out, two);
    let four = put_argument(job, 3, out, three);
    out[four] = b'\n';
    four + 1
}
