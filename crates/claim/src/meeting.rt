// Whether a claim meets our answer.
ghost use Rattle.std.specs.Prelude.{◌≡◌};
ghost use Rattle.claim.specs.Claims.{value_meets, refusal_meets, meets_of};

use binary64::split;
use carlson::answer::Answer;
use distance::{apart, is_finite_pattern};

// Kind 0 and the value's bits, or kind 1 and the refusal's number; no claim of another kind meets anything. Two words as another
// program hands them in, of any kind, so they stay words.
#[derive(Clone, Copy)]
pub struct Claim {
    pub kind: u64,
    pub word: u64,
}

fn value_meets(tolerance: u64, ours: u64, claim: Claim) -> bool
    ensures { result ≡ value_meets tolerance ours claim }
{
    if claim.kind != 0 {
        return false;
    }
    if is_finite_pattern(claim.word) {
        return apart(ours, claim.word) <= tolerance;
    }
    false
}

fn refusal_meets(number: u32, claim: Claim) -> bool
    ensures { result ≡ refusal_meets number claim }
{
    if claim.kind != 1 {
        return false;
    }
    claim.word == number as u64
}

pub fn meets(tolerance: u64, answer: Answer, claim: Claim) -> bool
    ensures { result ≡ meets_of tolerance answer claim }
{
    match answer {
        Ok(found) => value_meets(tolerance, split(found.value), claim),
        Err(refusal) => refusal_meets(refusal.number(), claim),
    }
}
