// The job of a call.
ghost use Rattle.std.specs.Prelude.{◌≡◌, ◌+◌, ◌≤◌, length};
ghost use Rattle.packed.specs.Jobs.{job_bytes};
ghost use Rattle.writing.specs.Written.{Put};
ghost use Rattle.pack_stream.specs.Pack.{job_of, job_room};

use calls::Call;
use packed::{Job, write_job};

// The job of these words.
fn job(function: u64, a: u64, b: u64, c: u64, d: u64) -> Job
    ensures { result ≡ record { function = function; a = a; b = b; c = c; d = d } }
{
    Job {
        function,
        a,
        b,
        c,
        d,
    }
}

pub fn job_of(call: Call) -> Job
    ensures { result ≡ job_of call }
{
    match call {
        Call::Rf(x, y, z) => job(1, x, y, z, 0),
        Call::Rc(x, y) => job(2, x, y, 0, 0),
        Call::Rd(x, y, z) => job(3, x, y, z, 0),
        Call::Rg(x, y, z) => job(4, x, y, z, 0),
        Call::Rj(x, y, z, p) => job(5, x, y, z, p),
        Call::Cel(kc, p, a, b) => job(6, kc, p, a, b),
    }
}

// Puts the call's job; there is always room for it.
pub fn put_call(call: Call, out: &mut [u8], at: usize) -> usize
    requires { at + job_room ≤ length out.old }
    ensures { Put out.old at (job_bytes (job_of call)) out.new result }
{
    match write_job(out, at, job_of(call)) {
        Ok(next) => next,
        Err(_) => at,
    }
}
