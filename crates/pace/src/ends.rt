// How many lines end in a block. The bytes are counted by parts of 224, so that a part's count is one byte: so sixteen bytes go
// in one instruction, and a block costs less than a hundredth of its answers.
ghost use Rattle.std.specs.Prelude.{◌≡◌, ◌≤◌, length, take};
ghost use Rattle.pace.specs.Numbers.{ends_of, newlines};

const PART: usize = 224;

fn ending(b: u8) -> u8
    ensures { result ≡ ends_of b }
{
    u8::from(b == b'\n')
}

fn count(part: &[u8]) -> u8
    requires { length part.now ≤ 224 }
    ensures { result ≡ newlines part.now }
{
    let mut lines: u8 = 0;
    for byte in part {
        lines += ending(*byte);
    }
    lines
}

// Of the first `size` bytes, or of all where there are fewer.
pub fn lines_in(block: &[u8], size: usize) -> u64
    ensures { result ≡ newlines (take size block.now) }
{
    let end = block.len().min(size);
    let mut lines: u64 = 0;
    for part in block[..end].chunks(PART) {
        lines += u64::from(count(part));
    }
    lines
}
