// RJ, the symmetric elliptic integral of the third kind (elliprj.rs; DLMF 19.16.2), in two: an entry for p above zero, and one
// for p below zero (document 02, 2026-10).
#![tactic(auto)]

ghost use Rattle.std.specs.Prelude.{◌≡◌};
ghost use Rattle.elliprj.specs.Rj.{rj_settled, rj_rest, rj_signed, rj_of_positive, rj_of_negative};

use carlson::answer::{Answer, handed, infinite, settle};
use carlson_arguments::checks::{any_infinite4, any_nan4, below3, zeros3};
use carlson_arguments::door::moderate4;
use refusals::Refusal;
use rj_calls::elliprj_unchecked;
use rj_positive::positive::positive;

// What was found is put together anew, field by field: copied whole, the bytes between its fields are copied too, one by one.
fn settled(a: Answer) -> Answer
    ensures { result ≡ rj_settled a }
{
    let found = a?;
    settle(handed(found, found.value), Refusal::NoResult)
}

// From no. 2 on.
fn rest(x: f64, y: f64, z: f64, p: f64) -> Answer
    ensures { result ≡ rj_rest x y z p }
{
    if below3(x, y, z) {
        return Err(Refusal::BelowZero);
    }
    if zeros3(x, y, z) {
        return Err(Refusal::Zeros);
    }
    if any_infinite4(x, y, z, p) {
        return infinite();
    }
    settled(elliprj_unchecked(x, y, z, p))
}

// An entry that refuses one sign of p.
fn signed(wrong: bool, x: f64, y: f64, z: f64, p: f64) -> Answer
    ensures { result ≡ rj_signed wrong x y z p }
{
    if any_nan4(x, y, z, p) {
        return Err(Refusal::NanGiven);
    }
    if p == 0.0 {
        return Err(Refusal::ZeroGiven);
    }
    if wrong {
        return Err(Refusal::WrongSign);
    }
    rest(x, y, z, p)
}

// RJ for p above zero.
pub fn elliprj_positive(x: f64, y: f64, z: f64, p: f64) -> Answer
    ensures { result ≡ rj_of_positive x y z p }
{
    if moderate4(x, y, z, p) {
        return settled(positive(x, y, z, p));
    }
    signed(p < 0.0, x, y, z, p)
}

// RJ for p below zero: its Cauchy principal value.
pub fn elliprj_negative(x: f64, y: f64, z: f64, p: f64) -> Answer
    ensures { result ≡ rj_of_negative x y z p }
{
    signed(p > 0.0, x, y, z, p)
}
