// A word in parts of a power of two, as an f64, rounded once. Its halves stand as the last digits of two f64s. What these hold
// above the halves is taken off the greater one, which is exact; so only the sum of both rounds. With words alone, the result
// waits for its exponent, and for the way from one kind of register to the other and back.
ghost use Rattle.std.specs.Prelude.{◌≡◌, ◌^◌, ◌≤◌, ◌==◌};
ghost use Rattle.std.specs.Float.{binary64};
ghost use Rattle.std.specs.Float.Ieee.{round};

const TOP: u64 = 0x8000_0000_0000_0000; // the sign's weight in a pattern

const ONE: u64 = 0x10_0000_0000_0000; // 2 ^ 52: the exponent's

const UPPER: u64 = 0x4530_0000_0000_0000; // the patterns of 2 ^ 84, whose last place is 2 ^ 32,

const LOWER: u64 = 0x4330_0000_0000_0000; // of 2 ^ 52, whose last place is 1,

const BOTH: u64 = 0x4530_0000_0010_0000; // and of the sum of these

const HALF: u64 = 0x1_0000_0000; // 2 ^ 32

// n parts of 2 ^ -k, negative where s is 1.
pub fn scaled(n: u64, k: u64, s: u64) -> f64
    requires { (2 ^ 59 ≤ n) × (k ≤ 1000) × (s ≤ 1) }
    ensures { result ≡ round binary64 (s == 1) n (2 ^ k) }
{
    let down = k * ONE;
    let sign = s * TOP;
    let upper = f64::from_bits(UPPER - down + n / HALF + sign);
    let both = f64::from_bits(BOTH - down + sign);
    let lower = f64::from_bits(LOWER - down + n % HALF + sign);
    upper - both + lower
}
