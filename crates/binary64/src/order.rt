// The larger and the smaller of two f64s. A NaN is passed over, and of two equal ones the first is taken, so that of two zeros
// the first one's sign is kept.
ghost use Rattle.std.specs.Prelude.{◌≡◌};
ghost use Rattle.binary64.specs.Leaves.{maximum, minimum};

pub fn max(x: f64, y: f64) -> f64
    ensures { result ≡ maximum x y }
{
    if x != x {
        return y;
    }
    if x < y {
        return y;
    }
    x
}

pub fn min(x: f64, y: f64) -> f64
    ensures { result ≡ minimum x y }
{
    if x != x {
        return y;
    }
    if y < x {
        return y;
    }
    x
}
