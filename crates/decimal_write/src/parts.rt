// The digits of an f64 above zero and its power of two, and by these the power of ten at which it has 18 or 19 digits.
ghost use Rattle.std.specs.Prelude.{◌≡◌, ◌*◌, ◌^◌, ◌≤◌, ◌<◌};
ghost use Rattle.rounding.specs.Cut.{value, infinity};
ghost use Rattle.decimal_write.specs.Whole.{Fit};

const FIELD: u64 = 0x10_0000_0000_0000; // 2 ^ 52

const LOG: u64 = 1_292_913_986; // log10 2 in units of 2 ^ -32

const START: u64 = 3_691_063_776_218; // 1183 less 1075 times that

// m * 2 ^ (y - 1075)
#[derive(Clone, Copy)]
pub struct Parts {
    pub m: u64,
    pub y: u64,
}

// The f64 with the pattern b.
pub fn parts_of(b: u64) -> Parts
    requires { (0 < b) × (b < infinity) }
    ensures { (result.m * 2 ^ result.y ≡ value b * 2) × (0 < result.m) × (result.y ≤ 2046) }
{
    if b < FIELD {
        return Parts { m: b, y: 1 };
    }
    Parts {
        m: FIELD + b % FIELD,
        y: b / FIELD,
    }
}

// The power of ten that goes into m * 2 ^ (y - 1075) some 10 ^ 17 to 10 ^ 18 times.
pub fn place(m: u64, y: u64) -> u64
    requires { (0 < m) × (y ≤ 2046) }
    ensures { Fit m y result }
{
    let k = y + 63 - u64::leading_zeros(m) as u64;
    (k * LOG + START) >> 32
}
