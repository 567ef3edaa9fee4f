// Horner's rule over a row of twelve coefficients.
ghost use Rattle.std.specs.Prelude.{◌≡◌, ◌+◌, ◌*◌, ◌/◌, ◌%◌, ◌^◌};
ghost use Rattle.pieces_rows.specs.Row.{listed};
ghost use Rattle.pieces.specs.Row.{wrapped};

use pieces_rows::Row;
use words::high;

// One multiplication and one addition. That the sum is below 2 ^ 64 is a fact of the rows, and is proved of the whole chain.
fn step(c: u64, d: u64, h: u64) -> u64
    ensures { result ≡ (c + d * h / 2 ^ 64) % 2 ^ 64 }
{
    std::num::wrapping_add_u64(c, high(d, h))
}

pub fn horner(d: u64, r: Row) -> u64
    ensures { result ≡ wrapped d (listed r) }
{
    let h10 = step(r.10, d, r.11);
    let h9 = step(r.9, d, h10);
    let h8 = step(r.8, d, h9);
    let h7 = step(r.7, d, h8);
    let h6 = step(r.6, d, h7);
    let h5 = step(r.5, d, h6);
    let h4 = step(r.4, d, h5);
    let h3 = step(r.3, d, h4);
    let h2 = step(r.2, d, h3);
    let h1 = step(r.1, d, h2);
    step(r.0, d, h1)
}
