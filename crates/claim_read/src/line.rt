// The name, then a value or a refusal; what follows is passed over.
ghost use Rattle.std.specs.Prelude.{◌≡◌};
ghost use Rattle.listing_read.specs.Lines.{same};
ghost use Rattle.unpack_stream.specs.Text.{name_text};
ghost use Rattle.claim_read.specs.Line.{no_claim, count_claim, refusal_said, said, claim_of};

use crate::fields::{count, field_length, rest, value};
use claim::Claim;
use listing_read::is_name;
use unpack_stream::letter;

// A claim that meets nothing.
fn none() -> Claim
    ensures { result ≡ no_claim }
{
    Claim { kind: 2, word: 0 }
}

fn is_name_of(field: &[u8], function: u64) -> bool
    ensures { result ≡ same field.now (name_text function) }
{
    if function == 6 {
        return is_name(field, b"CEL");
    }
    let name = [b'R', letter(function)];
    is_name(field, &name)
}

#[tactic(auto, unfolding(crate::specs::Line::count_claim))]
fn count_claim(word: Option<u64>) -> Claim
    ensures { result ≡ count_claim word }
{
    match word {
        Some(number) => Claim {
            kind: 1,
            word: number,
        },
        None => none(),
    }
}

// "refused" and a number.
fn refusal_said(text: &[u8]) -> Claim
    ensures { result ≡ refusal_said text.now }
{
    let n = field_length(text);
    if is_name(&text[..n], b"refused") {
        let after = rest(text, n);
        let m = field_length(after);
        return count_claim(count(&after[..m]));
    }
    none()
}

// What is said after the name.
fn claim_said(text: &[u8]) -> Claim
    ensures { result ≡ said text.now }
{
    let n = field_length(text);
    match value(&text[..n]) {
        Some(word) => Claim { kind: 0, word },
        None => refusal_said(text),
    }
}

// What the line, given without its end, claims of a job of that function.
pub fn claim_of(line: &[u8], function: u64) -> Claim
    ensures { result ≡ claim_of (name_text function) line.now }
{
    let n = field_length(line);
    if is_name_of(&line[..n], function) {
        let text = rest(line, n);
        return claim_said(text);
    }
    none()
}
