// What the bench profile (document 02, 2026-14) holds every argument to.
#![tactic(auto)]

ghost use Rattle.std.specs.Prelude.{◌≡◌};
ghost use Rattle.profile_arguments.specs.Arguments.{plus_zero, sized, sized2, sized3, sized4};

use binary64::abs;

const LEAST: f64 = 5.421010862427522e-20; // 2 ^ -64

const MOST: f64 = 18446744073709551616.0; // 2 ^ 64

// -0 becomes +0.
pub fn plus_zero(x: f64) -> f64
    ensures { result ≡ plus_zero x }
{
    if x == 0.0 {
        return 0.0;
    }
    x
}

#[tactic(auto, unfolding(crate::specs::Arguments::sized))]
fn sized(x: f64) -> bool
    ensures { result ≡ sized x }
{
    x == 0.0 || (LEAST <= abs(x) && abs(x) <= MOST)
}

#[tactic(auto, unfolding(crate::specs::Arguments::sized2))]
pub fn sized2(x: f64, y: f64) -> bool
    ensures { result ≡ sized2 x y }
{
    sized(x) && sized(y)
}

#[tactic(auto, unfolding(crate::specs::Arguments::sized3))]
pub fn sized3(x: f64, y: f64, z: f64) -> bool
    ensures { result ≡ sized3 x y z }
{
    sized2(x, y) && sized(z)
}

#[tactic(auto, unfolding(crate::specs::Arguments::sized4))]
pub fn sized4(x: f64, y: f64, z: f64, p: f64) -> bool
    ensures { result ≡ sized4 x y z p }
{
    sized3(x, y, z) && sized(p)
}
