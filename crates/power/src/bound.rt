// A bound of one word on the product d² n³. It decides all but one case of 200, by four multiplications for a middle, of which
// the next middle shares two.
//
// With m = n * 2 ^ z and g = d * 2 ^ 10, both of 64 digits where d has 54,
//     x = ((g * g / 2 ^ 64) * ((m * m / 2 ^ 64) * m / 2 ^ 64)) / 2 ^ 64
// is at most g² m³ / 2 ^ 256 and above it less 4: each quotient loses less than 1, times 2 ^ 64 at most.
ghost use Rattle.std.specs.Prelude.{◌≡◌, ℕ, ◌+◌, ◌*◌, ◌^◌, ◌<◌};
ghost use Rattle.power.specs.Parts.{against, Told};

use words::high;

// The side of one on which the product lies, if the bound tells.
#[derive(Clone, Copy)]
pub enum Side {
    Below,
    Above,
    Near,
}

const WHOLE: u64 = 0x20_0000_0000_0000; // 2 ^ 53

// The product x against 2 ^ (to - 2 * t).
fn bound(m: u64, g: u64, to: u64, t: u64) -> Side
    requires { (to < 2 ^ 14) × (t < 2 ^ 14) }
    ensures { (n d z : ℕ) → m ≡ n * 2 ^ z → g ≡ d * 2 ^ 10 → to ≡ 8202 + 3 * z → Told result (against n d t) }
{
    let x = high(high(g, g), high(high(m, m), m));
    if to < 2 * t {
        return Side::Near;
    }
    let places = to - 2 * t;
    if 63 < places {
        return Side::Near;
    }
    let one = 1 << places;
    if one < x {
        return Side::Above;
    }
    if 4 <= one - x {
        return Side::Below;
    }
    Side::Near
}

// With the digits of n moved up to the highest place, by 10 or 11. (A shift, since a branch would go either way half of the
// time.)
pub fn quick(n: u64, d: u64, t: u64) -> Side
    requires { (n < 2 ^ 54) × (d < 2 ^ 54) × (t < 2 ^ 14) }
    ensures { Told result (against n d t) }
{
    let z = 11 - n / WHOLE;
    bound(n << z, d * 1024, 8202 + 3 * z, t)
}
