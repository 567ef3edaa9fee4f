// The simple leaves on one or two f64s, for every bit pattern. What each means is in specs/Leaves.antt.
mod bits;
mod order;
mod size;

pub use crate::bits::{join, split};
pub use crate::order::{max, min};
pub use crate::size::{abs, is_finite};
