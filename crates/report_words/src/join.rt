// Two reports made one, block by block.
ghost use Rattle.std.specs.Prelude.{◌≡◌};
ghost use Rattle.report_words.specs.Words.{words_joined};

use crate::WORDS;
use crate::place::BLOCK;
use tally::join_blocks;

const FUNCTIONS: usize = 6;

// Words in another number, and nothing changes.
pub fn join_words(report: &mut [u64], other: &[u64])
    ensures { report.new ≡ words_joined report.old other.now }
{
    if report.len() != WORDS {
        return;
    }
    if other.len() != WORDS {
        return;
    }
    for k in 0..FUNCTIONS {
        let at = k * BLOCK;
        let end = at + BLOCK;
        join_blocks(&mut report[at..end], &other[at..end]);
    }
}
