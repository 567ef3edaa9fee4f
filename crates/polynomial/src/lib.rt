// The polynomial of RC near equal arguments, by Horner's rule.
#![tactic(auto)]

ghost use Rattle.std.specs.Prelude.{◌≡◌};
ghost use Rattle.polynomial.specs.Polynomial.{horner};

// 1, -1/3, 1/5, .., 1/17, each quotient rounded.
const COEFFICIENTS: [f64; 9] = [
    1.0,
    -0.3333333333333333,
    0.2,
    -0.14285714285714285,
    0.1111111111111111,
    -0.09090909090909091,
    0.07692307692307693,
    -0.06666666666666667,
    0.058823529411764705,
];

// From the highest coefficient down, product and sum rounded apart.
pub fn polynomial(y: f64) -> f64
    ensures { result ≡ horner y }
{
    let mut sum = COEFFICIENTS[8];
    for k in (0..8usize).rev() {
        sum = sum * y + COEFFICIENTS[k];
    }
    sum
}
