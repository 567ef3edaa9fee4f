// The roots that a closed form takes. None waits for another, so all are guessed first and then tested, one after the other, as
// in a pass of duplication (docs/DECISIONS.md, "Roots together").
ghost use Rattle.std.specs.Prelude.{◌≡◌};
ghost use Rattle.root.specs.Root.{root};

use root::together::numbers3;
use root::{certain, sqrt};
use root_guess::{by_row, row};

#[derive(Clone, Copy)]
pub struct Both {
    pub x: f64,
    pub y: f64,
}

#[derive(Clone, Copy)]
pub struct All {
    pub x: f64,
    pub y: f64,
    pub z: f64,
}

pub fn both_roots(x: f64, y: f64) -> Both
    ensures { (result.x ≡ root x) × (result.y ≡ root y) }
{
    if numbers3(x, y, y) {
        let a = f64::to_bits(x);
        let b = f64::to_bits(y);
        let rx = by_row(a, row(a));
        let ry = by_row(b, row(b));
        if numbers3(rx, ry, ry) {
            if certain(a, f64::to_bits(rx)) {
                if certain(b, f64::to_bits(ry)) {
                    return Both { x: rx, y: ry };
                }
            }
        }
    }
    Both {
        x: sqrt(x),
        y: sqrt(y),
    }
}

pub fn all_roots(x: f64, y: f64, z: f64) -> All
    ensures { (result.x ≡ root x) × ((result.y ≡ root y) × (result.z ≡ root z)) }
{
    if numbers3(x, y, z) {
        let a = f64::to_bits(x);
        let b = f64::to_bits(y);
        let c = f64::to_bits(z);
        let rx = by_row(a, row(a));
        let ry = by_row(b, row(b));
        let rz = by_row(c, row(c));
        if numbers3(rx, ry, rz) {
            if certain(a, f64::to_bits(rx)) {
                if certain(b, f64::to_bits(ry)) {
                    if certain(c, f64::to_bits(rz)) {
                        return All {
                            x: rx,
                            y: ry,
                            z: rz,
                        };
                    }
                }
            }
        }
    }
    All {
        x: sqrt(x),
        y: sqrt(y),
        z: sqrt(z),
    }
}
