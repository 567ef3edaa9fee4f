// The number at a line's end.
ghost use Rattle.std.specs.Prelude.{◌≡◌, ◌^◌};
ghost use Rattle.report_read.specs.Reading.{number_step, trailing, has_minus};

use digits::digit;
use words::product_plus;

// The number after one byte more.
fn decimal_step(v: u64, b: u8) -> u64
    ensures { result ≡ number_step 10 (2 ^ 64) v b }
{
    let d = digit(b);
    if d < 10 {
        return product_plus(v, 10, d, 0).lo;
    }
    0
}

pub fn last_decimal(line: &[u8]) -> u64
    ensures { result ≡ trailing 10 (2 ^ 64) 0 line.now }
{
    let mut v: u64 = 0;
    for b in line {
        v = decimal_step(v, *b);
    }
    v
}

pub fn has_minus(line: &[u8]) -> bool
    ensures { result ≡ has_minus line.now }
{
    for b in line {
        if *b == b'-' {
            return true;
        }
    }
    false
}
