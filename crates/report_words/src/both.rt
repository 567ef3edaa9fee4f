// How many calls a report may hold, of a list or of two reports.
ghost use Rattle.std.specs.Prelude.{◌≡◌};
ghost use Rattle.report_words.specs.Room.{room_for, room_both, list_judged, join_judged, join_after};

use crate::calls::room_after;
use crate::join::join_words;
use refusals::Refusal;

const MOST_CALLS: u64 = 4294967295;

// Whether there is room for so many calls more.
pub fn room_for(report: &[u64], calls: u64) -> bool
    ensures { result ≡ room_for report.now calls }
{
    match room_after(MOST_CALLS, report) {
        Some(left) => calls <= left,
        None => false,
    }
}

// Whether a list that was looked through, with so many jobs, may be added.
pub fn judge_list(report: &[u64], count: Result<u64, Refusal>) -> Result<(), Refusal>
    ensures { result ≡ list_judged report.now count }
{
    let calls = count?;
    if room_for(report, calls) {
        return Ok(());
    }
    Err(Refusal::TooMany)
}

// Whether there is room for the calls of both.
fn room_both(report: &[u64], other: &[u64]) -> bool
    ensures { result ≡ room_both report.now other.now }
{
    match room_after(MOST_CALLS, report) {
        Some(left) => room_after(left, other).is_some(),
        None => false,
    }
}

// Refused, the report is as it was.
pub fn join_reports(report: &mut [u64], other: &[u64]) -> Result<(), Refusal>
    ensures value { result ≡ join_judged report.old other.now }
    ensures report_after { report.new ≡ join_after report.old other.now }
{
    if room_both(report, other) {
        join_words(report, other);
        return Ok(());
    }
    Err(Refusal::TooMany)
}
