// The tables of the short polynomials: for each sixty_fourth of the range a row of twelve coefficients. They are enclosure's
// `row`, in code.
mod euler;
mod odd;
mod row;

pub use crate::euler::euler_row;
pub use crate::odd::odd_row;
pub use crate::row::Row;
