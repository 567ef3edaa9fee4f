// A row: a job, and what is claimed of it.
ghost use Rattle.std.specs.Prelude.{◌≡◌};
ghost use Rattle.claim.specs.Rows.{row_after};
ghost use Rattle.table.specs.Table.{row_meets};

use claim::{Checked, Claim, meets, row_after};
use job_answers::job_answer;
use packed::Job;

fn job_meets(tolerance: u64, job: Job, claim: Claim) -> bool
    ensures { result ≡ row_meets tolerance job claim }
{
    meets(tolerance, job_answer(job), claim)
}

// What is known after the row. After a bad one, or a claim that was missing, no job has to be answered any more.
pub fn judged(so: Checked, row: u64, job: Job, claim: Claim, tolerance: u64) -> Checked
    ensures { result ≡ row_after so row (row_meets tolerance job claim) }
{
    match so {
        Checked::Refused(refusal) => Checked::Refused(refusal),
        Checked::BadRow(first) => Checked::BadRow(first),
        Checked::Accepted => row_after(Checked::Accepted, row, job_meets(tolerance, job, claim)),
    }
}
