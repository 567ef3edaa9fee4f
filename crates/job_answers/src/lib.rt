// A job of a work list to its answer: the entry of its function's number, at the f64s of its arguments.
#![tactic(auto)]

ghost use Rattle.std.specs.Prelude.{◌≡◌};
ghost use Rattle.answers.specs.Answers.{answer_of};
ghost use Rattle.job_answers.specs.JobAnswers.{call_of_job};

use answers::answer_of;
use calls::Call;
use carlson::answer::Answer;
use packed::Job;

// The call that the job is. No list has a job of another number than these.
#[tactic(auto, unfolding(crate::specs::JobAnswers::call_of_job))]
fn call_of_job(job: Job) -> Call
    ensures { result ≡ call_of_job job }
{
    match job.function {
        1 => Call::Rf(job.a, job.b, job.c),
        2 => Call::Rc(job.a, job.b),
        3 => Call::Rd(job.a, job.b, job.c),
        4 => Call::Rg(job.a, job.b, job.c),
        5 => Call::Rj(job.a, job.b, job.c, job.d),
        _ => Call::Cel(job.a, job.b, job.c, job.d),
    }
}

pub fn job_answer(job: Job) -> Answer
    ensures { result ≡ answer_of (call_of_job job) }
{
    answer_of(call_of_job(job))
}
