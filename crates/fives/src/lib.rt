// Powers of five: those that one word holds, and the leading digits of every 27th.
mod rows;
mod small;

pub use crate::rows::row;
pub use crate::small::five;
