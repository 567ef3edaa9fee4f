// The door in front of an entry: arguments within the limits of rescaling, of which the first may be zero. No check refuses them
// and nothing is rescaled (specs/Door.antt), so that an entry may take its steps at once.
ghost use Rattle.std.specs.Prelude.{◌≡◌};
ghost use Rattle.carlson_arguments.specs.Door.{moderate, moderate2, moderate3, moderate4};

use binary64::abs;
use carlson::constants::{LIMIT, RECIPROCAL};

#[tactic(auto, unfolding(crate::specs::Door::moderate))]
pub fn moderate(x: f64) -> bool
    ensures { result ≡ moderate x }
{
    x > RECIPROCAL && x < LIMIT
}

// RC's, whose second argument may be below zero.
#[tactic(auto, unfolding(crate::specs::Door::moderate2))]
pub fn moderate2(x: f64, y: f64) -> bool
    ensures { result ≡ moderate2 x y }
{
    (moderate(x) || x == 0.0) && moderate(abs(y))
}

#[tactic(auto, unfolding(crate::specs::Door::moderate3))]
pub fn moderate3(x: f64, y: f64, z: f64) -> bool
    ensures { result ≡ moderate3 x y z }
{
    (moderate(x) || x == 0.0) && moderate(y) && moderate(z)
}

#[tactic(auto, unfolding(crate::specs::Door::moderate4))]
pub fn moderate4(x: f64, y: f64, z: f64, p: f64) -> bool
    ensures { result ≡ moderate4 x y z p }
{
    moderate3(x, y, z) && moderate(p)
}
