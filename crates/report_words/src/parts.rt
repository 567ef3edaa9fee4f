// What stands in a report, by the function's number: 0 for every other number.
ghost use Rattle.std.specs.Prelude.{◌≡◌};
ghost use Rattle.report_words.specs.Words.{word_at, refused_at, sum_at};

use crate::place::{BLOCK, stands};

const FIRST: u64 = 1; // the numbers that are tallied, each at its own place

const LAST: u64 = 27;

const ROUNDS: usize = 28;

const MOST: usize = 29;

const SUM: usize = 30;

const SUM_WORDS: usize = 34;

// The word at a place of the function's block.
fn word_at(report: &[u64], function: u64, place: usize) -> u64
    ensures { result ≡ word_at report.now function place }
{
    if BLOCK <= place {
        return 0;
    }
    if stands(report.len(), function) {
        return report[(function as usize - 1) * BLOCK + place];
    }
    0
}

pub fn calls_of(report: &[u64], function: u64) -> u64
    ensures { result ≡ word_at report.now function 0 }
{
    word_at(report, function, 0)
}

// How often that number was the function's refusal.
pub fn refused_of(report: &[u64], function: u64, number: u64) -> u64
    ensures { result ≡ refused_at report.now function number }
{
    if number < FIRST {
        return 0;
    }
    if LAST < number {
        return 0;
    }
    word_at(report, function, number as usize)
}

pub fn rounds_of(report: &[u64], function: u64) -> u64
    ensures { result ≡ word_at report.now function 28 }
{
    word_at(report, function, ROUNDS)
}

pub fn most_of(report: &[u64], function: u64) -> u64
    ensures { result ≡ word_at report.now function 29 }
{
    word_at(report, function, MOST)
}

// The exact sum rounded once.
pub fn sum_of(report: &[u64], function: u64) -> f64
    ensures { result ≡ sum_at report.now function }
{
    if stands(report.len(), function) {
        let at = (function as usize - 1) * BLOCK + SUM;
        let end = at + SUM_WORDS;
        return exact::rounded(&report[at..end]);
    }
    0.0
}
