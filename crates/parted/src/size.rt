// An f64 is m / 2^s; m times the unit takes two words, of which the highest digits are kept in one, with a flag for the rest.
ghost use Rattle.std.specs.Prelude.{◌≡◌, ◌*◌, ◌^◌, ◌<◌, ◌≤◌};
ghost use Rattle.parted.specs.Parts.{parts_of, parted_of, tiny_of};

use crate::parts::{Parts, cut};
use binary64::split;
use nearest::sticky;
use words::product;

const FIELD: u64 = 0x10_0000_0000_0000; // 2 ^ 52

const SIGN: u64 = 0x8000_0000_0000_0000; // the sign's weight in a pattern

const LIMIT: u64 = 0x4130_0000_0000_0000; // the pattern of 2 ^ 20

const TINY: u64 = 0x3d60_0000_0000_0000; // and of 2 ^ -41, below which no unit makes a half

const LOST: u64 = 0x4000_0000; // 2 ^ 30

// No more units are asked for.
const UNITS: u64 = 1_000_000_000_000;

// m * unit over 2 ^ s
fn scaled(m: u64, unit: u64, s: u64) -> Parts
    requires m_bound { m < 2 ^ 53 }
    requires unit_bound { unit ≤ 1000000000000 }
    requires le_s { (32 ≤ s) × (s < 94) }
    ensures { result ≡ parts_of (m * unit) (2 ^ s) }
{
    let p = product(m, unit);
    let w = (p.hi << 34) + (p.lo >> 30);
    cut(sticky(w, p.lo % LOST), s - 30)
}

// Less than half of a unit, if anything.
fn tiny(size: u64) -> Parts
    ensures { result ≡ tiny_of size }
{
    if size == 0 {
        return Parts { whole: 0, part: 0 };
    }
    Parts { whole: 0, part: 1 }
}

// The size of a value below 2^20 in units of which 1 to 10^12 make up 1; of another value or unit, nothing.
pub fn parted(value: f64, unit: u64) -> Parts
    ensures { result ≡ parted_of value unit }
{
    let size = split(value) % SIGN;
    if size < LIMIT {
        if 1 <= unit {
            if unit <= UNITS {
                if size < TINY {
                    return tiny(size);
                }
                return scaled(FIELD + size % FIELD, unit, 1075 - size / FIELD);
            }
            return Parts { whole: 0, part: 0 };
        }
        return Parts { whole: 0, part: 0 };
    }
    Parts { whole: 0, part: 0 }
}
