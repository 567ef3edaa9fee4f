// A job is written at a place, whole or not at all.
ghost use Rattle.std.specs.Prelude.{◌≡◌, ◌+◌, ◌≤◌, length};
ghost use Rattle.writing.specs.Written.{Put};
ghost use Rattle.packed.specs.Jobs.{argument_bytes, job_bytes, job_length};
ghost use Rattle.packed.specs.Writing.{left_after, write_at, bytes_after};

use crate::jobs::{Job, argument_of, arity};
use crate::numbers::put_number;
use packed_number::number_length;
use refusals::Refusal;

fn argument_length(job: Job, k: usize) -> usize
    ensures { result ≡ length (argument_bytes job k) }
{
    if k < arity(job.function) {
        return number_length(argument_of(job, k));
    }
    0
}

fn put_argument(job: Job, k: usize, out: &mut [u8], at: usize) -> usize
    requires { at + length (argument_bytes job k) ≤ length out.old }
    ensures { Put out.old at (argument_bytes job k) out.new result }
{
    if k < arity(job.function) {
        return put_number(argument_of(job, k), out, at);
    }
    at
}

// In how many bytes a job is written.
pub fn job_length(job: Job) -> usize
    ensures { result ≡ job_length job }
{
    number_length(job.function)
        + (argument_length(job, 0)
            + (argument_length(job, 1) + (argument_length(job, 2) + argument_length(job, 3))))
}

fn put_job(job: Job, out: &mut [u8], place: usize) -> usize
    requires { place + job_length job ≤ length out.old }
    ensures { Put out.old place (job_bytes job) out.new result }
{
    let none = put_number(job.function, out, place);
    let one = put_argument(job, 0, out, none);
    let two = put_argument(job, 1, out, one);
    let three = put_argument(job, 2, out, two);
    put_argument(job, 3, out, three)
}

fn left_after(length: usize, place: usize) -> usize
    ensures { result ≡ left_after length place }
{
    if length < place {
        return 0;
    }
    length - place
}

// Writes the job at a place; the place after it. Refused, no byte changes.
pub fn write_job(bytes: &mut [u8], place: usize, job: Job) -> Result<usize, Refusal>
    ensures value { result ≡ write_at (length bytes.old) place job }
    ensures bytes_after { bytes.new ≡ bytes_after result bytes.old place job }
{
    if arity(job.function) == 0 {
        return Err(Refusal::UnknownFunction);
    }
    if left_after(bytes.len(), place) < job_length(job) {
        return Err(Refusal::NoRoom);
    }
    Ok(put_job(job, bytes, place))
}
