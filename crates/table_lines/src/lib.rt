// A work list's jobs and the lines of a listing made by anyone, row by row (document 02, 2026-11).
#![tactic(auto)]

ghost use Rattle.std.specs.Prelude.{◌≡◌};
ghost use Rattle.claim.specs.Rows.{row_after};
ghost use Rattle.table_lines.specs.Lines.{is_header, line_meets};

use claim::Checked;
use claim_read::claim_of;
use listing_read::is_name;
use packed::Job;
use table::judged;

// "carlson 1" or "carlson 2": the first line, where a listing has a header.
pub fn is_header(line: &[u8]) -> bool
    ensures { result ≡ is_header line.now }
{
    if is_name(line, b"carlson 1") {
        return true;
    }
    is_name(line, b"carlson 2")
}

// What is known after a row, with its line.
pub fn judged_line(so: Checked, row: u64, job: Job, line: &[u8], tolerance: u64) -> Checked
    ensures { result ≡ row_after so row (line_meets tolerance job line.now) }
{
    let claim = claim_of(line, job.function);
    judged(so, row, job, claim, tolerance)
}
