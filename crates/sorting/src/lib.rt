// Three values brought into order as the Rust does it: each step exchanges two of them where they stand wrong.
#![tactic(auto)]

ghost use Rattle.std.specs.Prelude.{◌≡◌};
ghost use Rattle.sorting.specs.Sorting.{rise_xy, rise_yz, fall_xy, fall_xz, rising, largest_first};

#[derive(Clone, Copy)]
pub struct Triple {
    pub x: f64,
    pub y: f64,
    pub z: f64,
}

pub fn rise_xy(t: Triple) -> Triple
    ensures { result ≡ rise_xy t }
{
    if t.x > t.y {
        return Triple {
            x: t.y,
            y: t.x,
            z: t.z,
        };
    }
    t
}

fn rise_yz(t: Triple) -> Triple
    ensures { result ≡ rise_yz t }
{
    if t.y > t.z {
        return Triple {
            x: t.x,
            y: t.z,
            z: t.y,
        };
    }
    t
}

fn fall_xy(t: Triple) -> Triple
    ensures { result ≡ fall_xy t }
{
    if t.x < t.y {
        return Triple {
            x: t.y,
            y: t.x,
            z: t.z,
        };
    }
    t
}

fn fall_xz(t: Triple) -> Triple
    ensures { result ≡ fall_xz t }
{
    if t.x < t.z {
        return Triple {
            x: t.z,
            y: t.y,
            z: t.x,
        };
    }
    t
}

// x, then y, then z.
pub fn rising(t: Triple) -> Triple
    ensures { result ≡ rising t }
{
    rise_xy(rise_yz(rise_xy(t)))
}

// The largest in x, the smallest in y.
pub fn largest_first(t: Triple) -> Triple
    ensures { result ≡ largest_first t }
{
    rise_yz(fall_xz(fall_xy(t)))
}
