// The digits of a number as they come: how many there are, and their number as far as a word holds it.
ghost use Rattle.std.specs.Prelude.{◌≡◌, ◌<◌, ◌^◌};
ghost use Rattle.decimal_scan.specs.Figures.{no_figures, first_of, grown_by, figures_after, room_for};

// The digits from the first that is not 0; those of them up to the last that is not 0; the number that the first 19 are.
#[derive(Clone, Copy)]
pub struct Figures {
    pub digits: u64,
    pub kept: u64,
    pub value: u64,
}

// So many digits count, zeros in front and at the end apart; and so many of any kind, or after the point, that no text will have.
const SIGNIFICANT: u64 = 800;

const MANY: u64 = 0x1_0000_0000;

#[tactic(auto, unfolding(crate::specs::Figures::no_figures))]
pub fn none() -> Figures
    ensures { result ≡ no_figures }
{
    Figures {
        digits: 0,
        kept: 0,
        value: 0,
    }
}

// One digit more of the number, until there are 19: the first is not 0, so its size tells.
#[tactic(auto, unfolding(crate::specs::Figures::first_of))]
fn first(value: u64, d: u64) -> u64
    requires { d < 10 }
    ensures { result ≡ first_of value d }
{
    if value < 1_000_000_000_000_000_000 {
        return value * 10 + d;
    }
    value
}

#[tactic(auto, unfolding(crate::specs::Figures::grown_by))]
fn grown(f: Figures, d: u64) -> Figures
    requires { (d < 10) × (f.digits < 2 ^ 32) }
    ensures { result ≡ grown_by f d }
{
    let digits = f.digits + 1;
    let value = first(f.value, d);
    let kept = if d == 0 { f.kept } else { digits };
    Figures {
        digits,
        kept,
        value,
    }
}

// Zeros in front count for nothing.
#[tactic(auto, unfolding(crate::specs::Figures::figures_after))]
pub fn after(f: Figures, d: u64) -> Figures
    requires { (d < 10) × (f.digits < 2 ^ 32) }
    ensures { result ≡ figures_after f d }
{
    if f.digits == 0 && d == 0 {
        return f;
    }
    grown(f, d)
}

// Whether a digit may follow.
#[tactic(auto, unfolding(crate::specs::Figures::room_for))]
pub fn room(digits: u64, places: u64, d: u64) -> bool
    ensures { result ≡ room_for digits places d }
{
    digits < MANY && places < MANY && (d == 0 || digits < SIGNIFICANT)
}
