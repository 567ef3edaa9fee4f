// The constants of the Rust and of document 01, by their decimal digits; specs/Constants.antt has the bits.
pub const PI: f64 = 3.141592653589793;

pub const PI_2: f64 = 1.5707963267948966;

pub const EPSILON: f64 = 2.220446049250313e-16; // 2 ^ -52

// The eighth root of the largest f64, by three rounded roots, and its rounded reciprocal (document 01, Rescaling).
pub const LIMIT: f64 = 3.4028236692093843e38;

pub const RECIPROCAL: f64 = 2.9387358770557194e-39;
