// A guess at the pattern of the answer, by plain f64 arithmetic. Nothing is proved of it but that it is safe. In tests it was
// right at all but one number of 1000, and there its neighbour was.
//
// The number is a * 4 ^ (y - 1022) with 1 ≤ a < 4, a = n / 2 ^ 52, and its power is a ^ (-3/2) * 8 ^ (1022 - y). The pattern of
// a, halved and subtracted from a constant, is near that of 1 / √a. One step of Newton's method gives s to 9 binary digits. It
// is rounded to a multiple of 2 ^ -17, so that s * s and s * s * s are exact. With w = 1 - a * s * s, formed by two parts of a
// so that little is lost, a ^ (-3/2) = s³ * (1 - w) ^ (-3/2) = s³ + s³ * w * (3/2 + 15/8 * w + 35/16 * w² + ..) The sum with s³
// comes last, so that the only rounding that counts is its own.
ghost use Rattle.std.specs.Prelude.{◌*◌, ◌^◌, ◌<◌, ◌≤◌};
ghost use Rattle.power.specs.Parts.{Held};

const ONE: u64 = 0x10_0000_0000_0000; // 2 ^ 52

const TWO: u64 = 0x3fe0_0000_0000_0000; // with the 53 digits, the pattern of a number from 1 to 2

const FOUR: u64 = 0x3ff0_0000_0000_0000; // and from 2 to 4

const INFINITY: u64 = 0x7ff0_0000_0000_0000; // the pattern of the infinity

const LOW: u64 = 0x4_0000_0000; // 2 ^ 34: the lower half of the digits

// The pattern of n / 2 ^ 52.
fn pattern(n: u64) -> u64
    requires { (2 ^ 52 ≤ n) × (n < 2 ^ 54) }
    ensures { (1023 * 2 ^ 52 ≤ result) × (result < 1025 * 2 ^ 52) }
{
    if n < 2 * ONE {
        return n + TWO;
    }
    n / 2 + FOUR
}

// a ^ (-3/2) of the number that has the pattern b, from 1 to 4.
fn estimate(b: u64) -> f64
    requires { (1023 * 2 ^ 52 ≤ b) × (b < 1025 * 2 ^ 52) }
{
    let a = f64::from_bits(b);
    let first = f64::from_bits(0x5fe6_eb50_c7b5_37a9 - b / 2);
    let near = first * (1.50087 - 0.5 * a * (first * first));
    let s = near + 51539607552.0 - 51539607552.0;
    let s2 = s * s;
    let s3 = s2 * s;
    let high = f64::from_bits(b - b % LOW);
    let w = 1.0 - high * s2 - (a - high) * s2;
    let ww = w * w;
    let even = 1.5 + w * 1.875 + ww * (2.1875 + w * 2.4609375);
    let odd = 2.70703125 + w * 2.9326171875;
    s3 + s3 * w * (even + ww * ww * odd)
}

// The pattern of v * 8 ^ (1022 - y), where b is that of v: the exponents are added, and past both ends of the range the digits
// fall away.
fn moved(b: u64, y: u64) -> u64
    requires { y ≤ 1534 }
{
    let up = b / ONE + 3066;
    let down = 3 * y;
    let c = b % ONE + ONE;
    if down < up {
        let field = up - down;
        if field < 2047 {
            return (field - 1) * ONE + c;
        }
        return INFINITY;
    }
    let lost = down - up;
    if 53 < lost {
        return 0;
    }
    ((c >> lost) + 1) / 2
}

pub(crate) fn guess(n: u64, y: u64) -> u64
    requires { Held n y }
{
    let v = estimate(pattern(n));
    if v > 0.0 {
        return moved(f64::to_bits(v), y);
    }
    0
}
