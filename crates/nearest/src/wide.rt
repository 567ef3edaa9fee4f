// A number of two words brought to the top of one.
ghost use Rattle.std.specs.Prelude.{◌≡◌, false, eqb};
ghost use Rattle.nearest.specs.Stands.{wide, Topped};

use crate::word::sticky;
use words::Wide;

// The digits of a number at the top of one word, with the flag for those below it, and z zeros before them in the two words.
#[derive(Clone, Copy)]
pub struct Digits {
    pub v: u64,
    pub z: u64,
}

// (a word that is 0 has 64 zeros, by which no word is moved; of 0 nothing is said)
pub fn top(w: Wide) -> Digits
    ensures { eqb (wide w.hi w.lo) 0 ≡ false → Topped (wide w.hi w.lo) result.v result.z }
{
    if w.hi == 0 {
        let z = u64::leading_zeros(w.lo) as u64;
        return Digits {
            v: w.lo << (z % 64),
            z: z + 64,
        };
    }
    let z = u64::leading_zeros(w.hi) as u64;
    let v = (w.hi << z) + (w.lo >> 1 >> (63 - z));
    Digits {
        v: sticky(v, w.lo << z),
        z,
    }
}
