// The lines of a report's text, one after the other.
ghost use Rattle.std.specs.Prelude.{◌≡◌};
ghost use Rattle.listing_read.specs.Lines.{same};
ghost use Rattle.report_text.specs.Text.{header_line};
ghost use Rattle.report_read.specs.Reading.{line_taken, answer_of, words_of};

use crate::line::{is_tally, try_line};
use listing_read::is_name;
use report_text::LINES;
use report_words::WORDS;

// "report 1"
pub fn is_header(line: &[u8]) -> bool
    ensures { result ≡ same header_line line.now }
{
    is_name(b"report 1", line)
}

// The line q, or one after it that comes where tallies of 0 are left out: what it says goes into the words, and the number
// of the line that may come next is answered. A line that is none of these gives None and leaves the words as they were.
pub fn take_line(words: &mut [u64], q: usize, line: &[u8]) -> Option<usize>
    ensures value { result ≡ answer_of (line_taken q words.old line.now) }
    ensures words_after { words.new ≡ words_of words.old (line_taken q words.old line.now) }
{
    if words.len() != WORDS {
        return None;
    }
    for k in q..LINES {
        if try_line(words, k, line) {
            return Some(k + 1);
        }
        if !is_tally(k) {
            return None;
        }
    }
    None
}
