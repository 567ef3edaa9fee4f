// Numbers as upper-case digits: what a byte is, read as a digit, and what digits are, read as a number.
#![tactic(auto)]

ghost use Rattle.std.specs.Prelude.{◌≡◌, ◌<◌, ◌≤◌, length};
ghost use Rattle.digits.specs.Digits.{digit_of, number_from, number_of};

// No digit, in any base: not below one, so that one comparison tells a digit of a base from every other byte.
const NONE: u64 = 16;

// The digit that a byte is, and 16 for every other byte.
#[tactic(auto, unfolding(crate::specs::Digits::digit_of))]
pub fn digit(b: u8) -> u64
    ensures { result ≡ digit_of b }
{
    match b {
        b'0'..=b'9' => (b - b'0') as u64,
        b'A'..=b'F' => (b - b'A') as u64 + 10,
        _ => NONE,
    }
}

// The number that these digits are, if digits is what they are: sixteen fill a word.
fn held(text: &[u8], base: u64) -> Option<u64>
    requires text_len { length text.now ≤ 16 }
    requires base_within { (1 < base) × (base ≤ 16) }
    ensures { result ≡ number_from base 0 text.now }
{
    let mut value: u64 = 0;
    for b in text {
        let d = digit(*b);
        if d >= base {
            return None;
        }
        value = value * base + d;
    }
    Some(value)
}

// The same of any text: none of more than sixteen bytes, and none in a base that is not from 2 to 16.
#[tactic(auto, unfolding(crate::specs::Digits::number_of))]
pub fn number(text: &[u8], base: u64) -> Option<u64>
    ensures { result ≡ number_of base text.now }
{
    if text.len() <= 16 && 1 < base && base <= 16 {
        return held(text, base);
    }
    None
}
