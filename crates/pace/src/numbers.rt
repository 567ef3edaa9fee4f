// The numbers of a line.
ghost use Rattle.std.specs.Prelude.{◌≡◌};
ghost use Rattle.pace.specs.Numbers.{known_of, percent_of, since_of, rate_of, due_of};

// An input of more bytes than this has no share: a hundred times as many would pass a word.
const MOST: u64 = 0x0200_0000_0000_0000;

// The clock is asked once in so many bytes of a quick input.
const STRIDE: u64 = 16384;

// Whether a share can be told: the input has bytes, and not too many.
pub fn known(size: u64) -> bool
    ensures { result ≡ known_of size }
{
    if size == 0 {
        return false;
    }
    size <= MOST
}

// What part of the input was read, in whole hundredths, rounded down; no more than all of it, and 0 of a size that is not known.
pub fn percent(read: u64, size: u64) -> u64
    ensures { result ≡ percent_of read size }
{
    if size <= read {
        return 100;
    }
    if size <= MOST {
        return read * 100 / size;
    }
    0
}

// How much is later more than earlier, if it is.
fn since(later: u64, earlier: u64) -> u64
    ensures { result ≡ since_of later earlier }
{
    if later < earlier {
        return 0;
    }
    later - earlier
}

// How much was done in a second since the line before; a clock that was set back counts as one second.
pub fn rate(done: u64, before: u64, now: u64, then: u64) -> u64
    ensures { result ≡ rate_of done before now then }
{
    if now <= then {
        return since(done, before);
    }
    since(done, before) / (now - then)
}

// Whether the clock is asked after a block of this length, of which so many bytes came, with so many read before it and after it:
// where the block was not full, so that the input is slow, and else at every stride.
pub fn due(length: usize, size: usize, before: u64, after: u64) -> bool
    ensures { result ≡ due_of length size before after }
{
    if size < length {
        return true;
    }
    before / STRIDE < after / STRIDE
}
