// An answer more.
ghost use Rattle.std.specs.Prelude.{◌≡◌};
ghost use Rattle.report_words.specs.Words.{counted_added};

use crate::place::{BLOCK, stands};
use tally::{Counted, add_to_block};

// In the block of the function with this number. An unknown function, or words in another number, and nothing changes.
pub fn add_counted(report: &mut [u64], function: u64, counted: Counted)
    ensures { report.new ≡ counted_added report.old function counted }
{
    if stands(report.len(), function) {
        let at = (function as usize - 1) * BLOCK;
        let end = at + BLOCK;
        add_to_block(&mut report[at..end], counted);
    }
}
