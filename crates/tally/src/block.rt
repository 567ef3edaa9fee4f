// An answer more in a block: a word for the calls, one for each number from 1 to 27, one for the rounds, one for the most, and
// the words of the sum behind them.
ghost use Rattle.std.specs.Prelude.{◌≡◌, ◌<◌, length};
ghost use Rattle.tally.specs.Tally.{block_words, grown, tallied, raised, summed, block_added};

use crate::counted::Counted;
use exact::add_value;

pub const BLOCK: usize = 64;

const FIRST: u64 = 1; // the least number that is tallied, at the word of that place,

const LAST: u64 = 27; // and the largest

const ROUNDS: usize = 28;

const MOST: usize = 29;

const SUM: usize = 30; // the first word of the sum

// A word grows.
fn grow(block: &mut [u64], i: usize, n: u64)
    requires { i < length block.old }
    ensures { block.new ≡ grown block.old i n }
{
    block[i] = std::num::wrapping_add_u64(block[i], n);
}

// A refusal more of that number; 0 is none.
fn tally(block: &mut [u64], number: u64)
    requires { length block.old ≡ block_words }
    ensures { block.new ≡ tallied block.old number }
{
    if number < FIRST {
        return;
    }
    if LAST < number {
        return;
    }
    grow(block, number as usize, 1);
}

// The most is compared, not added.
fn raise(block: &mut [u64], rounds: u64)
    requires { length block.old ≡ block_words }
    ensures { block.new ≡ raised block.old rounds }
{
    if block[MOST] < rounds {
        block[MOST] = rounds;
    }
}

// The value goes into the exact sum.
fn sum(block: &mut [u64], bits: u64)
    requires { length block.old ≡ block_words }
    ensures { block.new ≡ summed block.old bits }
{
    add_value(&mut block[SUM..], bits);
}

// Words in another number are left as they are.
pub fn add_to_block(block: &mut [u64], counted: Counted)
    ensures { block.new ≡ block_added block.old counted }
{
    if block.len() != BLOCK {
        return;
    }
    grow(block, 0, 1);
    tally(block, counted.refused);
    grow(block, ROUNDS, counted.rounds);
    raise(block, counted.rounds);
    sum(block, counted.bits);
}
