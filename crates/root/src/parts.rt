// The pattern of an f64 above zero, taken apart into a whole number and a power of four. For callers in other crates too.
ghost use Rattle.std.specs.Prelude.{◌≡◌, ◌+◌, ◌*◌, ◌^◌, ◌<◌, ◌≤◌};
ghost use Rattle.root.specs.Parts.{Scaled};

const ONE: u64 = 0x10_0000_0000_0000; // 2 ^ 52

// The value is n * 4 ^ (y - 511) smallest units, where n has 53 or 54 digits.
#[derive(Clone, Copy)]
pub struct Parts {
    pub n: u64,
    pub y: u64,
}

// The exponent's field says the power of two; where that is odd, n takes one more digit.
fn normal(b: u64) -> Parts
    ensures { 2 ^ 52 ≤ b → Scaled b result.n result.y }
{
    let m = b % ONE + ONE;
    let y = (b / ONE + 1021) / 2;
    if b / ONE % 2 == 1 {
        return Parts { n: m, y };
    }
    Parts { n: m * 2, y }
}

// With no leading digit, n is multiplied by 4 until it has 53, at most 26 times. (A `while`, since only n says when that is: a
// `for` would want a count and a way out.)
fn subnormal(b: u64) -> Parts
    requires { (0 < b) × (b < 2 ^ 52) }
    ensures { Scaled b result.n result.y }
{
    let mut n = b;
    let mut y = 511;
    while n < ONE {
        n *= 4;
        y -= 1;
    }
    Parts { n, y }
}

// Zero has no such parts and gives two zeros. A pattern past the infinity's is taken as if the exponents went on.
pub fn scaled(b: u64) -> Parts
    ensures { (b ≡ 0 → (result.n ≡ 0) × (result.y ≡ 0)) × (0 < b → Scaled b result.n result.y) }
{
    if ONE <= b {
        return normal(b);
    }
    if 0 < b {
        return subnormal(b);
    }
    Parts { n: 0, y: 0 }
}
