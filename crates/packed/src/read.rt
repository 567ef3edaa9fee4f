// A job is read at a place: nothing is stored, so a refused read leaves its place.
ghost use Rattle.std.specs.Prelude.{◌≡◌};
ghost use Rattle.packed_number.specs.Numbers.{number_at};
ghost use Rattle.packed.specs.Reading.{function_read, argument_at, read_at};

use crate::jobs::{Job, arity, with_argument};
use packed_number::number_at;
use refusals::Refusal;

#[derive(Clone, Copy)]
pub struct Got {
    pub job: Job,
    pub next: usize,
}

// The function's number, judged as a number first; an unknown one is refused before any argument is looked at.
fn function_at(bytes: &[u8], place: usize) -> Result<Got, Refusal>
    ensures { result ≡ function_read (number_at bytes.now place) }
{
    let number = number_at(bytes, place)?;
    if arity(number.value) == 0 {
        return Err(Refusal::UnknownFunction);
    }
    Ok(Got {
        job: Job {
            function: number.value,
            a: 0,
            b: 0,
            c: 0,
            d: 0,
        },
        next: number.next,
    })
}

// The argument at k, where the function has one.
fn argument_at(bytes: &[u8], got: Got, k: usize) -> Result<Got, Refusal>
    ensures { result ≡ argument_at bytes.now got k }
{
    let job = got.job;
    if k < arity(job.function) {
        let number = number_at(bytes, got.next)?;
        return Ok(Got {
            job: with_argument(job, k, number.value),
            next: number.next,
        });
    }
    Ok(got)
}

// The job at a place, and the place after it; None where nothing is left. A place beyond the bytes is as one at their end.
pub fn read_job(bytes: &[u8], place: usize) -> Result<Option<Got>, Refusal>
    ensures { result ≡ read_at bytes.now place }
{
    if bytes.len() <= place {
        return Ok(None);
    }
    let none = function_at(bytes, place)?;
    let one = argument_at(bytes, none, 0)?;
    let two = argument_at(bytes, one, 1)?;
    let three = argument_at(bytes, two, 2)?;
    let all = argument_at(bytes, three, 3)?;
    Ok(Some(all))
}
