// A number in groups of seven bits, low group first, top bit set while more follow, shortest form only (document 02, 2026-03):
// read at a place of a lent slice, and how long it is written.
#![tactic(auto)]

ghost use Rattle.std.specs.Prelude.{◌≡◌, ◌+◌, ◌*◌, ◌^◌, ◌<◌, length};
ghost use Rattle.packed_number.specs.Numbers.{last_group, number_at, number_bytes};

use refusals::Refusal;

// A number that was read whole, and the place after it.
#[derive(Clone, Copy)]
pub struct Number {
    pub value: u64,
    pub next: usize,
}

// The last group: a zero adds nothing, so it stands only alone.
fn last_group(weight: u64, value: u64, next: usize, group: u64) -> Result<Number, Refusal>
    requires { value + group * weight < 2 ^ 64 }
    ensures { result ≡ last_group weight value next group }
{
    if group == 0 {
        if 1 < weight {
            return Err(Refusal::NumberBad);
        }
        return Ok(Number { value, next });
    }
    Ok(Number {
        value: value + group * weight,
        next,
    })
}

// The number at a place. The weight after nine groups is 2^63, so a tenth can only be 1.
pub fn number_at(bytes: &[u8], place: usize) -> Result<Number, Refusal>
    ensures { result ≡ number_at bytes.now place }
{
    if bytes.len() < place {
        return Err(Refusal::ListCut);
    }
    let mut weight: u64 = 1;
    let mut value: u64 = 0;
    let mut at = place;
    for left in (0..9usize).rev() {
        if bytes.len() <= at {
            return Err(Refusal::ListCut);
        }
        let b = bytes[at] as u64;
        if b < 128 {
            return last_group(weight, value, at + 1, b);
        }
        value = value + (b - 128) * weight;
        weight = weight * 128;
        at += 1;
    }
    if bytes.len() <= at {
        return Err(Refusal::ListCut);
    }
    if bytes[at] == 1 {
        return Ok(Number {
            value: value + weight,
            next: at + 1,
        });
    }
    Err(Refusal::NumberBad)
}

// In how many groups a number is written.
pub fn number_length(n: u64) -> usize
    ensures { result ≡ length (number_bytes n) }
{
    let mut rest = n;
    for left in (0..9usize).rev() {
        if rest < 128 {
            return 9 - left;
        }
        rest = rest / 128;
    }
    10
}
