// What found a power. No answer rests on it: it is there to be counted.

// A rule for what is no finite number above zero; the guess, certified by bounds of one word, or by the exact product; a
// neighbour of the guess; its digits one by one.
#[derive(Clone, Copy)]
pub enum Way {
    Rule,
    Bound,
    Product,
    Neighbour,
    Digits,
}

#[derive(Clone, Copy)]
pub struct Found {
    pub value: f64,
    pub way: Way,
}
