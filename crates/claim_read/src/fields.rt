// A line's fields, with one blank between two.
ghost use Rattle.std.specs.Prelude.{◌≡◌, ◌==◌, ◌+◌, length, drop, position};
ghost use Rattle.claim_read.specs.Line.{field_of, value_of, count_of};

use digits::number;

fn first_blank(text: &[u8]) -> Option<usize>
    ensures { result ≡ position (λ b. b == 32) text.now }
{
    text.iter().position(|b| *b == b' ')
}

// How long the first field is: up to a blank, or all.
pub fn field_length(text: &[u8]) -> usize
    ensures { result ≡ length (field_of text.now) }
{
    first_blank(text).unwrap_or(text.len())
}

// What follows a field of that length, and the blank after it.
pub fn rest(text: &[u8], n: usize) -> &[u8]
    ensures { result.now ≡ drop (n + 1) text.now }
{
    if n < text.len() {
        let from = n + 1;
        return &text[from..];
    }
    let end = text.len();
    &text[end..]
}

// A value's pattern: sixteen digits.
#[tactic(auto, unfolding(crate::specs::Line::value_of, digits::specs::Digits::number_of))]
pub fn value(field: &[u8]) -> Option<u64>
    ensures { result ≡ value_of field.now }
{
    if field.len() == 16 {
        return number(field, 16);
    }
    None
}

// A refusal's number: up to ten decimal digits.
#[tactic(auto, unfolding(crate::specs::Line::count_of, digits::specs::Digits::number_of))]
pub fn count(field: &[u8]) -> Option<u64>
    ensures { result ≡ count_of field.now }
{
    if field.is_empty() || 10 < field.len() {
        return None;
    }
    number(field, 10)
}
