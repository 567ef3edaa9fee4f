// The report of a work list (document 02, 2026-05): its answers' counts and exact sums, added to what a report holds. What is
// refused leaves the report as it was: a list is looked through before any entry is asked.
#![tactic(auto)]

ghost use Rattle.std.specs.Prelude.{◌≡◌};
ghost use Rattle.packed.specs.Reading.{read_all};
ghost use Rattle.report.specs.Report.{job_added, jobs_added, jobs_of, report_judged, list_after};

use job_answers::job_answer;
use packed::{Job, read_job};
use refusals::Refusal;
use report_words::{add_counted, judge_list};
use tally::counted_of;
use worklist::count_jobs;

// What a job's answer counts, added to its function's block.
pub fn add_job(report: &mut [u64], job: Job)
    ensures { report.new ≡ job_added report.old job }
{
    add_counted(report, job.function, counted_of(job_answer(job)));
}

// The answers of a list's jobs, up to the first refusal. Each read says itself where the next one begins, so there is no index.
fn add_jobs(report: &mut [u64], list: &[u8])
    ensures { report.new ≡ jobs_added report.old (jobs_of (read_all list.now)) }
{
    let mut place: usize = 0;
    while let Ok(Some(got)) = read_job(list, place) {
        let job = got.job;
        add_job(report, job);
        place = got.next;
    }
}

// Refused, the report is as it was.
pub fn report_list(report: &mut [u64], list: &[u8]) -> Result<(), Refusal>
    ensures value { result ≡ report_judged report.old list.now }
    ensures report_after { report.new ≡ list_after report.old list.now }
{
    let judged = judge_list(report, count_jobs(list));
    if judged.is_ok() {
        add_jobs(report, list);
    }
    judged
}
