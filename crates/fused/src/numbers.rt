// a * b + c for three finite f64s, none of them a zero, with their parts.
ghost use Rattle.std.specs.Prelude.{◌≡◌};
ghost use Rattle.fused.specs.Fused.{fused};
ghost use Rattle.fused.specs.Parts.{Taken};

use crate::parts::Parts;
use crate::sum::total;
use words::{Wide, product};

// The product of 106 digits and the addend of 53 are brought to the same place at the top of two words.
pub fn numbers(a: f64, b: f64, c: f64, x: Parts, y: Parts, z: Parts) -> f64
    requires { Taken a x.m x.e × Taken b y.m y.e × Taken c z.m z.e }
    ensures { result ≡ fused a b c }
{
    let p = product(x.m * 1024, y.m * 1024);
    let q = Wide {
        hi: z.m * 512,
        lo: 0,
    };
    total(a, b, c, p, q, x.e + y.e, z.e + 1085)
}
