// Where a function's block stands.
ghost use Rattle.std.specs.Prelude.{◌≡◌};
ghost use Rattle.report_words.specs.Words.{stands_in};

use crate::WORDS;

pub const BLOCK: usize = 64;

const FUNCTIONS: u64 = 6;

// Whether so many words are a report's, and the function is one that the work lists know.
pub fn stands(length: usize, function: u64) -> bool
    ensures { result ≡ stands_in length function }
{
    if length != WORDS {
        return false;
    }
    if function < 1 {
        return false;
    }
    function <= FUNCTIONS
}
