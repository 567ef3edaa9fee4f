// Two blocks made one.
ghost use Rattle.std.specs.Prelude.{◌≡◌, length};
ghost use Rattle.tally.specs.Tally.{block_words, sum_place, word_joined, slots_joined, sums_of, block_joined};

use crate::block::BLOCK;

const MOST: usize = 29;

const SUM: usize = 30;

// The word at a place below the sum, of both.
fn joined_word(i: usize, v: u64, w: u64) -> u64
    ensures { result ≡ word_joined i v w }
{
    if i == MOST {
        return v.max(w);
    }
    v.wrapping_add(w)
}

fn join_slots(block: &mut [u64], other: &[u64])
    requires block_len { length block.old ≡ block_words }
    requires other_len { length other.now ≡ block_words }
    ensures { block.new ≡ slots_joined 0 sum_place block.old other.now }
{
    for i in 0..SUM {
        block[i] = joined_word(i, block[i], other[i]);
    }
}

fn join_sums(block: &mut [u64], other: &[u64])
    requires block_len { length block.old ≡ block_words }
    requires other_len { length other.now ≡ block_words }
    ensures { block.new ≡ sums_of block.old other.now }
{
    exact::join(&mut block[SUM..], &other[SUM..]);
}

// Words in another number are left as they are.
pub fn join_blocks(block: &mut [u64], other: &[u64])
    ensures { block.new ≡ block_joined block.old other.now }
{
    if block.len() != BLOCK {
        return;
    }
    if other.len() != BLOCK {
        return;
    }
    join_slots(block, other);
    join_sums(block, other);
}
