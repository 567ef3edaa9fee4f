// The fused multiply-add for C callers.
ghost use Rattle.std.specs.Prelude.{◌≡◌};
ghost use Rattle.fused.specs.Fused.{fused};

#[unsafe(no_mangle)]
pub extern "C" fn gatewren_mul_add(a: f64, b: f64, c: f64) -> f64
    ensures { result ≡ fused a b c }
{
    fused::mul_add(a, b, c)
}
