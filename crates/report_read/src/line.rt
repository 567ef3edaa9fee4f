// A try at one line: what the line says is written, and if that is the line, it goes into the words.
ghost use Rattle.std.specs.Prelude.{◌≡◌, ◌&&◌, ◌%◌, ◌≤◌, ◌<◌, eqb, length, take};
ghost use Rattle.exact.specs.Exact.{held_by};
ghost use Rattle.tally.specs.Tally.{sum_place};
ghost use Rattle.listing_read.specs.Lines.{same};
ghost use Rattle.report_words.specs.Words.{report_words};
ghost use Rattle.report_text.specs.Text.{slot_line, exact_line, sum_line, line_count, slot_at, tally_at};
ghost use Rattle.report_read.specs.Reading.{fits_at, tried_at};

use crate::number::last_decimal;
use crate::sum::last_sum;
use limbs::copy;
use listing_read::is_name;
use report_text::{put_exact, put_slot, put_sum};

const LAST: usize = 27; // the largest number that is tallied

const SUM: usize = 30;

// Whether the first n bytes are the line.
fn same_front(held: &[u8], n: usize, line: &[u8]) -> bool
    requires { n ≤ length held.now }
    ensures { result ≡ same (take n held.now) line.now }
{
    is_name(&held[..n], line)
}

fn same_slot(function: u64, i: usize, n: u64, line: &[u8]) -> bool
    ensures { result ≡ same (slot_line function i n) line.now }
{
    let mut held = [0u8; 35];
    let end = put_slot(function, i, n, &mut held, 0);
    same_front(&held, end, line)
}

fn same_exact(function: u64, sum: &[u64], line: &[u8]) -> bool
    ensures { result ≡ same (exact_line function (held_by sum.now)) line.now }
{
    let mut held = [0u8; 555];
    let end = put_exact(function, sum, &mut held, 0);
    same_front(&held, end, line)
}

fn same_sum(function: u64, sum: &[u64], line: &[u8]) -> bool
    ensures { result ≡ same (sum_line function (held_by sum.now)) line.now }
{
    let mut held = [0u8; 24];
    let end = put_sum(function, sum, &mut held, 0);
    same_front(&held, end, line)
}

// Whether the line q is a tally's.
pub fn is_tally(q: usize) -> bool
    ensures { result ≡ tally_at q }
{
    let i = q % 32;
    if i < 1 {
        return false;
    }
    i <= LAST
}

// Whether the line q is left out where it says n.
fn is_out(q: usize, n: u64) -> bool
    ensures { result ≡ (tally_at q && eqb n 0) }
{
    if is_tally(q) {
        return n == 0;
    }
    false
}

fn try_slot(words: &mut [u64], q: usize, line: &[u8]) -> bool
    requires words_len { length words.old ≡ report_words }
    requires q_lt_line_count { q < line_count }
    requires q_bound { slot_at q < sum_place }
    ensures value { result ≡ fits_at words.old q line.now }
    ensures words_after { words.new ≡ tried_at words.old q line.now }
{
    let n = last_decimal(line);
    if is_out(q, n) {
        return false;
    }
    if same_slot((q / 32 + 1) as u64, q % 32, n, line) {
        words[q / 32 * 64 + q % 32] = n;
        return true;
    }
    false
}

fn try_exact(words: &mut [u64], q: usize, line: &[u8]) -> bool
    requires words_len { length words.old ≡ report_words }
    requires q_lt_line_count { q < line_count }
    requires q_value { slot_at q ≡ sum_place }
    ensures value { result ≡ fits_at words.old q line.now }
    ensures words_after { words.new ≡ tried_at words.old q line.now }
{
    let mut said = [0u64; 34];
    last_sum(line, &mut said);
    if same_exact((q / 32 + 1) as u64, &said, line) {
        let from = q / 32 * 64 + SUM;
        let end = from + 34;
        copy(&mut words[from..end], &said);
        return true;
    }
    false
}

// What the rounded sum is, the words say already.
fn try_sum(words: &[u64], q: usize, line: &[u8]) -> bool
    requires words_len { length words.now ≡ report_words }
    requires q_lt_line_count { q < line_count }
    requires sum_place_bound { sum_place < slot_at q }
    ensures { result ≡ fits_at words.now q line.now }
{
    let from = q / 32 * 64 + SUM;
    let end = from + 34;
    same_sum((q / 32 + 1) as u64, &words[from..end], line)
}

pub fn try_line(words: &mut [u64], q: usize, line: &[u8]) -> bool
    requires words_len { length words.old ≡ report_words }
    requires q_lt_line_count { q < line_count }
    ensures value { result ≡ fits_at words.old q line.now }
    ensures words_after { words.new ≡ tried_at words.old q line.now }
{
    if q % 32 < SUM {
        return try_slot(words, q, line);
    }
    if q % 32 == SUM {
        return try_exact(words, q, line);
    }
    try_sum(words, q, line)
}
