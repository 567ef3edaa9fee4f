// The f64 nearest to a decimal number d * 10 ^ (t - 1200), for every d and every t: by a short way where one knows it, else by
// the long road, and where that does not reach, by a number in reach that rounds alike.
#![tactic(auto)]

mod long_road;
mod short_first;

pub use crate::long_road::nearest_limbs;
pub use crate::short_first::nearest;
