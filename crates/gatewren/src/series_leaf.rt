// atan, ln and ln_1p on f64.
ghost use Rattle.std.specs.Prelude.{◌≡◌};
ghost use Rattle.series.specs.Atan.{atan};
ghost use Rattle.series.specs.Ln.{ln};
ghost use Rattle.series.specs.Ln1p.{ln_1p};

#[unsafe(no_mangle)]
pub extern "C" fn gatewren_atan(x: f64) -> f64
    ensures { result ≡ atan x }
{
    series::atan(x)
}

#[unsafe(no_mangle)]
pub extern "C" fn gatewren_ln(x: f64) -> f64
    ensures { result ≡ ln x }
{
    series::ln(x)
}

#[unsafe(no_mangle)]
pub extern "C" fn gatewren_ln_1p(x: f64) -> f64
    ensures { result ≡ ln_1p x }
{
    series::ln_1p(x)
}
