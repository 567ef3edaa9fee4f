// A guess for a chain of roots, each of which is taken of what the one before it gave. All that a guess wants beside its number,
// the row of the table and the powers of two, is made ready from another number near it, which is there earlier: the number
// itself then goes through f64 arithmetic alone, and waits neither for its bits nor for the table. Nothing is proved of it but
// that it is safe.
use crate::rows::row_of;

const ONE: u64 = 0x10_0000_0000_0000; // 2 ^ 52

const TWO: u64 = 0x20_0000_0000_0000; // 2 ^ 53

const WIDE_PIECE: u64 = 0x1_0000_0000_0000; // 2 ^ 48

// A number of few digits near the root; its square, which is exact; and a quotient by it, with its sign turned, so that the power
// of two in it is a pattern whatever b is.
#[derive(Clone, Copy)]
pub struct Ahead {
    pub near: f64,
    pub square: f64,
    pub slope: f64,
}

// For numbers near the one with the pattern b, of which only the piece and the exponent count: a few digits of it are enough.
fn of_pattern(b: u64) -> Ahead {
    let k = row_of(b % TWO / WIDE_PIECE);
    let near = k.0 * f64::from_bits((b / TWO + 512) * ONE);
    Ahead {
        near,
        square: near * near,
        slope: k.2 * f64::from_bits((3582 - b / TWO) * ONE),
    }
}

// For no number: the guess is refused then.
pub fn unready() -> Ahead {
    Ahead {
        near: 0.0,
        square: 0.0,
        slope: 0.0,
    }
}

// For numbers near h; for none where h is not above zero.
pub fn ready(h: f64) -> Ahead {
    if h > 0.0 {
        return of_pattern(f64::to_bits(h));
    }
    unready()
}

// Twice the root, to some fourteen digits, by Heron's rule: enough to make the next root ready.
pub fn nearly_twice(x: f64, k: Ahead) -> f64 {
    k.near - x * (k.slope * 1.335)
}

// Two of the factors of `by_row`'s polynomial, multiplied out in different ways, so that LLVM makes no pair of them. They stand
// apart from the rest for the same reason: a caller tests something in between, and over a test no pair is made.
pub fn two_factors(x: f64, k: Ahead) -> f64 {
    let u = x * (k.slope * k.slope);
    let f = 1.2190167643047605 - u;
    (f * f + 0.5102329224728166) * (1.1237375909413425 - u * (0.9588248264102625 - u))
}

// `by_row`'s polynomial, at the number's own scale.
pub fn by_ahead(x: f64, k: Ahead, factors: f64) -> f64 {
    let d = x - k.square;
    let u = x * (k.slope * k.slope);
    let e = u + 0.15881394795965023;
    let left = d * k.slope * (1.5387691779308437 - u) * (e * e + 0.2855963302142687);
    k.near - left * factors
}
