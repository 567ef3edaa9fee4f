// The leaves on f64.
ghost use Rattle.std.specs.Prelude.{◌≡◌};
ghost use Rattle.root.specs.Root.{root};

#[unsafe(no_mangle)]
pub extern "C" fn gatewren_sqrt(x: f64) -> f64
    ensures { result ≡ root x }
{
    root::sqrt(x)
}
