// Several roots at once. The caller guesses them all (`root_guess::row`, `root_guess::by_row`), so that the processor works on
// them side by side, and then tests each (`certain`). Bits are read of numbers only, and one test of a sum tells that none of
// several f64s is NaN.
ghost use Rattle.std.specs.Prelude.{◌≡◌};
ghost use Rattle.root.specs.Together.{numbers3, numbers4};

pub fn numbers3(x: f64, y: f64, z: f64) -> bool
    ensures { result ≡ numbers3 x y z }
{
    let sum = x + y + z;
    sum == sum
}

pub fn numbers4(x: f64, y: f64, z: f64, p: f64) -> bool
    ensures { result ≡ numbers4 x y z p }
{
    let sum = x + y + z + p;
    sum == sum
}
