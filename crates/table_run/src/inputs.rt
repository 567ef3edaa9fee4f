// The list's jobs and the listing's lines, side by side.
use claim::{Checked, ended, missing};
use console::Source;
use jobs_in::{Pulled, place, pull};
use packed::Job;
use progress::jobs;
use rows::{BLOCK, ROW, Rows, next_of};
use swing_read::{Line, close, start, step};
use table_lines::{is_header, judged_line};
use writing::least;

// A number in decimal.
pub fn tolerance_of(text: &[u8]) -> Option<Line> {
    close(text.iter().fold(Some(start()), |read, b| step(read, *b)))
}

fn headed(rows: Rows, held: &[u8]) -> bool {
    if rows.whole {
        return is_header(&held[..least(held.len(), rows.row)]);
    }
    false
}

fn row_held(so: Checked, row: u64, job: Job, held: &[u8], n: usize, tolerance: u64) -> Checked {
    judged_line(so, row, job, &held[..least(held.len(), n)], tolerance)
}

// After a job more, with the line that is held, if one is.
fn row_more(
    so: Checked,
    row: u64,
    job: Job,
    rows: Rows,
    held: &[u8; ROW],
    tolerance: u64,
) -> Checked {
    if rows.whole {
        return row_held(so, row, job, held, rows.row, tolerance);
    }
    missing(so)
}

// The first line that is no header.
fn first_line(
    rt: HostRuntime,
    claims: Source<'_>,
    block: &mut [u8; BLOCK],
    held: &mut [u8; ROW],
) -> Rows {
    let first = next_of(rt, claims, rows::begin(), block, held);
    if headed(first, held) {
        return next_of(rt, claims, first, block, held);
    }
    first
}

pub fn check(
    rt: HostRuntime,
    tolerance: u64,
    list: Source<'_>,
    claims: Source<'_>,
    wanted: bool,
) -> Option<Checked> {
    let mut window = [0u8; 4096];
    let mut block = [0u8; BLOCK];
    let mut held = [0u8; ROW];
    let mut so = Checked::Accepted;
    let mut stands = jobs_in::begin();
    let mut meter = progress::begin(rt, wanted, list);
    let mut rows = first_line(rt, claims, &mut block, &mut held);
    // A proved loop has to end, and nothing says that the list does: so many turns no run uses up.
    for row in 0..u64::MAX {
        if rows.failed {
            return None;
        }
        match pull(rt, list, &mut window, stands) {
            Pulled::Job(job, next) => {
                so = row_more(so, row, job, rows, &held, tolerance);
                rows = next_of(rt, claims, rows, &mut block, &mut held);
                stands = next;
                meter = jobs(rt, meter, row, place(stands));
            }
            Pulled::End => return Some(ended(so, rows.whole)),
            Pulled::Refused(refusal) => return Some(Checked::Refused(refusal)),
            Pulled::Failed => return None,
        }
    }
    None
}
