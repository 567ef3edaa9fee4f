// The rows one after the other: what is known after each. The first bad row is kept, since the list may yet be refused.
ghost use Rattle.std.specs.Prelude.{◌≡◌};
ghost use Rattle.claim.specs.Rows.{row_after, missing_at, ended_at};

use refusals::Refusal;

// A verdict of its own: that a row is bad is neither a refusal nor a value, so a Result of an Option would say less.
#[derive(Clone, Copy)]
pub enum Checked {
    Accepted,
    // Counted from 0.
    BadRow(u64),
    Refused(Refusal),
}

// After a row more, whose claim meets our answer or not.
pub fn row_after(so: Checked, row: u64, met: bool) -> Checked
    ensures { result ≡ row_after so row met }
{
    match so {
        Checked::Refused(refusal) => Checked::Refused(refusal),
        Checked::BadRow(first) => Checked::BadRow(first),
        Checked::Accepted => {
            if met {
                return Checked::Accepted;
            }
            Checked::BadRow(row)
        }
    }
}

// After a job that has no claim, or a claim that has no job.
pub fn missing(so: Checked) -> Checked
    ensures { result ≡ missing_at so }
{
    match so {
        Checked::Refused(refusal) => Checked::Refused(refusal),
        Checked::BadRow(_) => Checked::Refused(Refusal::NumbersDiffer),
        Checked::Accepted => Checked::Refused(Refusal::NumbersDiffer),
    }
}

// At the list's end, where claims may be left.
pub fn ended(so: Checked, left: bool) -> Checked
    ensures { result ≡ ended_at so left }
{
    if left {
        return missing(so);
    }
    so
}
