// Rescaling (document 01): the arguments are divided by the scale, the largest argument's size, if it is beyond the limits and
// no nonzero argument would become zero. What an entry does with the scale's root is its own.
ghost use Rattle.std.specs.Prelude.{◌≡◌};
ghost use Rattle.carlson_arguments.specs.Rescaling.{
  scale_of2,
  scale_of3,
  scale_of4,
  beyond_limits,
  survives,
  survive2,
  survive3,
  survive4,
  rescales2,
  rescales3,
  rescales4,
};

use binary64::{abs, is_finite, max};
use carlson::constants::{LIMIT, RECIPROCAL};

pub fn scale2(x: f64, y: f64) -> f64
    ensures { result ≡ scale_of2 x y }
{
    max(abs(x), abs(y))
}

pub fn scale3(x: f64, y: f64, z: f64) -> f64
    ensures { result ≡ scale_of3 x y z }
{
    max(scale2(x, y), abs(z))
}

pub fn scale4(x: f64, y: f64, z: f64, p: f64) -> f64
    ensures { result ≡ scale_of4 x y z p }
{
    max(scale3(x, y, z), abs(p))
}

fn beyond(scale: f64) -> bool
    ensures { result ≡ beyond_limits scale }
{
    is_finite(scale) && scale > 0.0 && (scale > LIMIT || scale < RECIPROCAL)
}

fn stays(v: f64, scale: f64) -> bool
    ensures { result ≡ survives v scale }
{
    v == 0.0 || v / scale != 0.0
}

fn stay2(x: f64, y: f64, scale: f64) -> bool
    ensures { result ≡ survive2 x y scale }
{
    stays(x, scale) && stays(y, scale)
}

fn stay3(x: f64, y: f64, z: f64, scale: f64) -> bool
    ensures { result ≡ survive3 x y z scale }
{
    stay2(x, y, scale) && stays(z, scale)
}

fn stay4(x: f64, y: f64, z: f64, p: f64, scale: f64) -> bool
    ensures { result ≡ survive4 x y z p scale }
{
    stay3(x, y, z, scale) && stays(p, scale)
}

// Whether the arguments are divided by their scale.
pub fn rescales2(x: f64, y: f64, scale: f64) -> bool
    ensures { result ≡ rescales2 x y scale }
{
    beyond(scale) && stay2(x, y, scale)
}

pub fn rescales3(x: f64, y: f64, z: f64, scale: f64) -> bool
    ensures { result ≡ rescales3 x y z scale }
{
    beyond(scale) && stay3(x, y, z, scale)
}

pub fn rescales4(x: f64, y: f64, z: f64, p: f64, scale: f64) -> bool
    ensures { result ≡ rescales4 x y z p scale }
{
    beyond(scale) && stay4(x, y, z, p, scale)
}
