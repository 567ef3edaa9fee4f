// Checking tables for C (document 02, 2026-11): two words for each job. The row is written for a bad row alone.
ghost use Rattle.std.specs.Prelude.{◌≡◌};
ghost use Rattle.table.specs.Table.{check_of};
ghost use Rattle.gatewren.specs.Checks.{checked_number, checked_row};

use claim::Checked;

// What is returned for a bad row: no number for no.
const BAD_ROW: u32 = 4294967295;

fn checked_told(checked: Checked, row: &mut u64) -> u32
    ensures value { result ≡ checked_number checked }
    ensures row_after { row.new ≡ checked_row checked row.old }
{
    match checked {
        Checked::Accepted => 0,
        Checked::BadRow(first) => {
            *row = first;
            BAD_ROW
        }
        Checked::Refused(refusal) => refusal.number(),
    }
}

#[unsafe(no_mangle)]
pub extern "C" fn gatewren_check_table(
    list: &[u8],
    claims: &[u64],
    tolerance: u64,
    row: &mut u64,
) -> u32
    ensures value { result ≡ checked_number (check_of tolerance list.now claims.now) }
    ensures row_after { row.new ≡ checked_row (check_of tolerance list.now claims.now)
        row.old }
{
    let checked = table::check_table(list, claims, tolerance);
    checked_told(checked, row)
}
