// A job: its function's number and the bits of its arguments, those that the function does not have 0.
ghost use Rattle.std.specs.Prelude.{◌≡◌};
ghost use Rattle.packed.specs.Jobs.{arity_of, argument_of, with_argument};

#[derive(Clone, Copy)]
pub struct Job {
    pub function: u64,
    pub a: u64,
    pub b: u64,
    pub c: u64,
    pub d: u64,
}

// How many arguments the function of this number has; 0 for an unknown one. It stays a number: it is the file's, and a list may
// hold any.
#[tactic(auto, unfolding(crate::specs::Jobs::arity_of))]
pub fn arity(function: u64) -> usize
    ensures { result ≡ arity_of function }
{
    match function {
        1 => 3,
        2 => 2,
        3 => 3,
        4 => 3,
        5 => 4,
        6 => 4,
        _ => 0,
    }
}

// The argument at k, counted from 0.
#[tactic(auto, unfolding(crate::specs::Jobs::argument_of))]
pub fn argument_of(job: Job, k: usize) -> u64
    ensures { result ≡ argument_of job k }
{
    match k {
        0 => job.a,
        1 => job.b,
        2 => job.c,
        _ => job.d,
    }
}

// The job with another argument at k.
#[tactic(auto, unfolding(crate::specs::Jobs::with_argument))]
pub fn with_argument(job: Job, k: usize, value: u64) -> Job
    ensures { result ≡ with_argument job k value }
{
    match k {
        0 => Job { a: value, ..job },
        1 => Job { b: value, ..job },
        2 => Job { c: value, ..job },
        _ => Job { d: value, ..job },
    }
}
