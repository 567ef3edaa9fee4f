// Numbers by chance, the same in every run: a linear congruential generator.
ghost use Rattle.std.specs.Prelude.{◌<◌};

const MODULUS: u64 = 2_147_483_647; // 2 ^ 31 - 1

const HALF: u64 = 0x400_0000; // 2 ^ 26

const ONE: u64 = 0x10_0000_0000_0000; // 2 ^ 52

// From 2 ^ -10 to 2 ^ 10; of any exponent; subnormal.
#[derive(Clone, Copy)]
pub enum Range {
    Near,
    All,
    Least,
}

// A number, and the seed for the next.
#[derive(Clone, Copy)]
pub struct Drawn {
    pub x: f64,
    pub seed: u64,
}

fn next(seed: u64) -> u64 {
    seed % MODULUS * 48_271 % MODULUS
}

// The exponent's field.
fn field(range: Range, chance: u64) -> u64
    ensures { result < 2047 }
{
    match range {
        Range::Near => 1013 + chance % 20,
        Range::All => chance % 2047,
        Range::Least => 0,
    }
}

// The field by a step of the generator, the digits by two.
pub(crate) fn draw(range: Range, seed: u64) -> Drawn {
    let a = next(seed);
    let b = next(a);
    let c = next(b);
    let x = f64::from_bits(field(range, a) * ONE + b % HALF * HALF + c % HALF);
    Drawn { x, seed: c }
}
