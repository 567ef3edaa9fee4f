// The power -3/2 of an f64.
ghost use Rattle.std.specs.Prelude.{◌≡◌};
ghost use Rattle.power.specs.Power.{power};

#[unsafe(no_mangle)]
pub extern "C" fn gatewren_pow_neg_3_2(a: f64) -> f64
    ensures { result ≡ power a }
{
    power::pow_neg_3_2(a)
}
