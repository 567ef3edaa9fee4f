// A finite f64 above zero, taken apart, by its pattern without the sign.
ghost use Rattle.std.specs.Prelude.{◌≡◌, ◌^◌, ◌<◌, ◌≤◌, ◌&&◌, nat_le, nat_lt};
ghost use Rattle.rounding.specs.Cut.{infinity};
ghost use Rattle.fused.specs.Parts.{Scaled};

const ONE: u64 = 0x10_0000_0000_0000; // 2 ^ 52

const INFINITY: u64 = 0x7ff0_0000_0000_0000; // the pattern of the infinity

// Its value is m * 2 ^ (e - 64) smallest units, where m has 53 digits.
#[derive(Drop)]
pub struct Parts {
    pub m: u64,
    pub e: u64,
}

pub fn is_normal(b: u64) -> bool
    ensures { result ≡ (nat_le (2 ^ 52) b && nat_lt b infinity) }
{
    if b < ONE {
        return false;
    }
    b < INFINITY
}

pub fn normal(b: u64) -> Parts
    requires { (2 ^ 52 ≤ b) × (b < infinity) }
    ensures { Scaled b result.m result.e }
{
    Parts {
        m: b % ONE + ONE,
        e: b / ONE + 63,
    }
}

pub fn split(b: u64) -> Parts
    requires { (0 < b) × (b < infinity) }
    ensures { Scaled b result.m result.e }
{
    if b < ONE {
        let z = u64::leading_zeros(b) as u64;
        return Parts {
            m: b << (z - 11),
            e: 75 - z,
        };
    }
    normal(b)
}
