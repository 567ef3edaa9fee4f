// The rounding of a word, with one flag for the digits below it, which is its last digit: `sticky` sets it, and nothing else
// does.
ghost use Rattle.std.specs.Prelude.{◌≡◌, cond};
ghost use Prim.Native.Nat.{ℕ, compare, ◌+◌, ◌*◌, ◌/◌, ◌%◌, ◌^◌, ◌≤◌, ◌<◌};
ghost use Rattle.std.specs.Float.{binary64};
ghost use Rattle.std.specs.Float.Ieee.{nearest, round, neg, of_bits};
ghost use Rattle.rounding.specs.Cut.{infinity};
ghost use Rattle.rounding.specs.Jam.{Jam};
ghost use Rattle.nearest.specs.Stands.{stuck};

const ONE: u64 = 0x10_0000_0000_0000; // 2 ^ 52

const TOP: u64 = 0x8000_0000_0000_0000; // the sign's weight in a pattern

const INFINITY: u64 = 0x7ff0_0000_0000_0000; // the pattern of the infinity

// What is rounded: v * 2 ^ (e - 2296), the last digit of v being the flag for what is lost. Where v is 0, nothing is known.
#[derive(Clone, Copy)]
pub struct Leading {
    pub v: u64,
    pub e: u64,
}

// l with the flag for the digits below it: its last digit is set where something is lost.
pub fn sticky(l: u64, lost: u64) -> u64
    ensures { result ≡ stuck l lost }
{
    if lost == 0 {
        return l;
    }
    l / 2 * 2 + 1
}

// q, or the next number up: by how the rest r compares with the half h of the last place, and at a tie to the even one. An odd q
// wants no more than the tie, so one comparison decides.
fn even(q: u64, r: u64, h: u64) -> u64
    requires { (q < 2 ^ 53) × (r + q % 2 < 2 ^ 64) }
    ensures { result ≡ nearest q (compare r h) }
{
    if h < r + q % 2 {
        return q + 1;
    }
    q
}

// The last place is that of a subnormal number, 2 ^ -1074, and k digits of v lie below it.
fn subnormal(v: u64, k: u64) -> u64
    requires { 11 < k }
    ensures { result ≡ nearest (v / 2 ^ k) (compare (v % 2 ^ k * 2) (2 ^ k)) }
{
    if k > 64 {
        return 0;
    }
    if k == 64 {
        return even(0, v, TOP);
    }
    let q = v >> k;
    even(q, v - (q << k), 1u64 << (k - 1))
}

fn signed(s: bool, b: u64) -> f64
    requires { b ≤ infinity }
    ensures { result ≡ cond s (neg (of_bits binary64 b)) (of_bits binary64 b) }
{
    if s {
        return f64::from_bits(b + TOP);
    }
    f64::from_bits(b)
}

// A word of 64 digits that stands for a number X / Y, with the scale 2 ^ (e - 2296) and the sign s. A carry out of the digits
// runs into the exponent's field by itself.
pub fn round_word(s: bool, v: u64, e: u64) -> f64
    ensures { 2 ^ 63 ≤ v → (X Y : ℕ) → 0 < Y → Jam X Y v → result ≡ round binary64 s (X * 2 ^ e) (Y * 2 ^ 2296) }
{
    if e < 1211 {
        return signed(s, subnormal(v, 1222 - e));
    }
    let k = e - 1211;
    if k >= 2046 {
        return signed(s, INFINITY);
    }
    signed(s, k * ONE + even(v / 2048, v % 2048, 1024))
}
