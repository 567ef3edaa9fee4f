// What found a root. No answer rests on it: it is there to be counted.

// A rule for what is no finite number above zero; the guess, at once; a second guess, from the digits alone, as for a subnormal
// number; a neighbour of that; the bisection.
#[derive(Clone, Copy)]
pub enum Way {
    Rule,
    Guess,
    Second,
    Neighbour,
    Bisection,
}

#[derive(Clone, Copy)]
pub struct Found {
    pub value: f64,
    pub way: Way,
}
