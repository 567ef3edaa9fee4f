// The powers of ten that are f64s as they stand.
ghost use Rattle.std.specs.Prelude.{false, ◌^◌, ◌<◌};
ghost use Rattle.std.specs.Float.Ieee.Exact.{HasValue};

// 1 for a power that the table does not have.
pub fn ten(n: u64) -> f64
    ensures { n < 23 → HasValue result false (10 ^ n) 1 }
{
    match n {
        0 => 1e0,
        1 => 1e1,
        2 => 1e2,
        3 => 1e3,
        4 => 1e4,
        5 => 1e5,
        6 => 1e6,
        7 => 1e7,
        8 => 1e8,
        9 => 1e9,
        10 => 1e10,
        11 => 1e11,
        12 => 1e12,
        13 => 1e13,
        14 => 1e14,
        15 => 1e15,
        16 => 1e16,
        17 => 1e17,
        18 => 1e18,
        19 => 1e19,
        20 => 1e20,
        21 => 1e21,
        22 => 1e22,
        _ => 1.0,
    }
}
