// A period in whole units of 10^-12 s. The f64 is m / 2^s; m * 10^12 takes two words, and the quotient by 2^s is rounded once,
// half to even.
ghost use Rattle.std.specs.Prelude.{◌≡◌, ◌+◌, ◌*◌, ◌<◌, ◌≤◌, ◌^◌};
ghost use Prim.Native.Nat.{compare};
ghost use Rattle.std.specs.Float.Ieee.{nearest};
ghost use Rattle.std.specs.Float.Ieee.Nearest.{closest};
ghost use Rattle.between.specs.Between.{Between};
ghost use Rattle.swing.specs.Ratios.{power};
ghost use Rattle.swing_write.specs.Replies.{ticks_of};

use binary64::split;
use words::product;

const FIELD: u64 = 0x10_0000_0000_0000; // 2 ^ 52

// How many units of 10^-12 s a second has.
pub const TRILLION: u64 = 1_000_000_000_000;

// q, or the next: by the remainder r beside the half of what it is a remainder by.
fn nearer(q: u64, r: u64, half: u64) -> u64
    requires { q < 2 ^ 63 }
    ensures { result ≡ nearest q (compare r half) }
{
    if r < half {
        return q;
    }
    if r == half {
        return q + q % 2;
    }
    q + 1
}

// m * 10 ^ 12 over 2 ^ s
fn scaled(m: u64, s: u64) -> u64
    requires m_bound { m < 2 ^ 53 }
    requires le_s { (33 ≤ s) × (s ≤ 63) }
    ensures { result ≡ closest (m * 1000000000000) (2 ^ s) }
{
    let p = product(m, TRILLION);
    let q = (p.hi << (64 - s)) + (p.lo >> s);
    nearer(q, p.lo - (p.lo >> s << s), 1u64 << (s - 1))
}

// The value is that of a period: from 2^-11 to 2^19.
pub fn ticks(value: f64) -> u64
    requires { Between (power 1012) (power 1042) value }
    ensures { result ≡ ticks_of value }
{
    let bits = split(value);
    scaled(FIELD + bits % FIELD, 1075 - bits / FIELD)
}
