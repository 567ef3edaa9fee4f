// The f64 that a scanned text says.
ghost use Rattle.std.specs.Prelude.{◌≡◌, false, ◌+◌, ◌≤◌};
ghost use Rattle.decimal_scan.specs.Scan.{is_bad, start_of, bytes_after};
ghost use Rattle.decimal_scan.specs.Number.{text_value};
ghost use Rattle.decimal_read.specs.Said.{leading_of, raised_by, lowered_by};

use decimal_long::long;
use decimal_nearest::nearest;
use decimal_scan::Scan;

// So many digits a word holds.
const WORD: u64 = 19;

const ONES: u64 = 1200; // the power at which ten counts as 1

// How many digits are taken: all or the first 19, where only zeros follow those; or those up to the zeros at the end.
#[tactic(auto, unfolding(crate::specs::Said::leading_of))]
fn leading(digits: u64, kept: u64) -> u64
    ensures { result ≡ leading_of digits kept }
{
    if kept > WORD {
        return kept;
    }
    if digits < WORD {
        return digits;
    }
    WORD
}

// The powers of ten above: of the digits left out, and of the text's own power.
#[tactic(auto, unfolding(crate::specs::Said::raised_by))]
fn raised(left: u64, below: bool, tens: u64) -> u64
    requires { (left ≤ 4294967296) × (tens ≤ 2147483648) }
    ensures { result ≡ raised_by left below tens }
{
    if below {
        return left + ONES;
    }
    left + tens + ONES
}

#[tactic(auto, unfolding(crate::specs::Said::lowered_by))]
fn lowered(places: u64, below: bool, tens: u64) -> u64
    requires { (places ≤ 4294967296) × (tens ≤ 2147483648) }
    ensures { result ≡ lowered_by places below tens }
{
    if below {
        return tens + places;
    }
    places
}

// What is lowered below 10 ^ -400 is nothing: no number of digits in a word or in 42 limbs lifts it to an f64.
pub fn said(text: &[u8], s: Scan) -> f64
    requires { (s ≡ bytes_after start_of text.now) × (is_bad s.phase ≡ false) }
    ensures { result ≡ text_value text.now }
{
    let f = s.figures;
    let taken = leading(f.digits, f.kept);
    let up = raised(f.digits - taken, s.below, s.tens);
    let down = lowered(s.places, s.below, s.tens);
    if up < down {
        return nearest(s.minus, 0, ONES);
    }
    if f.kept > WORD {
        return long(text, s.minus, f.kept, up - down);
    }
    nearest(s.minus, f.value, up - down)
}
