// A byte more of a decimal.
ghost use Rattle.std.specs.Prelude.{◌≡◌, ◌<◌};
ghost use Rattle.decimal_scan.specs.Scan.{
  is_bad,
  of_number,
  start_of,
  at_phase,
  digit_after,
  most_tens,
  tens_after,
  figure_after,
  sign_after,
  minus_after,
  point_after,
  power_after,
  byte_after,
  is_whole,
};

use crate::figures::{Figures, after, none, room};

// What has come.
#[derive(Clone, Copy, PartialEq, Eq)]
pub enum Phase {
    Nothing,
    Minus,
    Digits,
    Point,
    // the digits after the point
    Places,
    // the `e`
    Power,
    PowerSign,
    PowerDigits,
    // No number, whatever follows. It stays a phase, and `step` gives no Option: the laws speak of a scan after any bytes.
    Bad,
}

impl Phase {
    pub fn is_bad(self) -> bool
        ensures { result ≡ is_bad self }
    {
        matches!(self, Phase::Bad)
    }

    // Whether a digit that comes now is one of the number itself, and not of the power.
    pub fn is_of_number(self) -> bool
        ensures { result ≡ of_number self }
    {
        matches!(
            self,
            Phase::Nothing | Phase::Minus | Phase::Digits | Phase::Point | Phase::Places
        )
    }
}

#[derive(Clone, Copy)]
pub struct Scan {
    pub phase: Phase,
    pub minus: bool,
    pub figures: Figures,
    // the digits after the point, and the power's sign and number
    pub places: u64,
    pub below: bool,
    pub tens: u64,
}

#[tactic(auto, unfolding(crate::specs::Scan::start_of))]
pub fn start() -> Scan
    ensures { result ≡ start_of }
{
    Scan {
        phase: Phase::Nothing,
        minus: false,
        figures: none(),
        places: 0,
        below: false,
        tens: 0,
    }
}

#[tactic(auto, unfolding(crate::specs::Scan::at_phase))]
fn at(s: Scan, phase: Phase) -> Scan
    ensures { result ≡ at_phase s phase }
{
    Scan { phase, ..s }
}

// A digit of the number itself, before the point or after it.
fn digit(s: Scan, d: u64, more: u64, phase: Phase) -> Scan
    requires { (d < 10) × (more < 2) }
    ensures { result ≡ digit_after s d more phase }
{
    let figures = s.figures;
    let places = s.places;
    if room(figures.digits, places, d) {
        let figures = after(figures, d);
        let places = places + more;
        return Scan {
            phase,
            figures,
            places,
            ..s
        };
    }
    at(s, Phase::Bad)
}

// The power fits an i32.
#[tactic(auto, unfolding(crate::specs::Scan::most_tens))]
fn most(below: bool) -> u64
    ensures { result ≡ most_tens below }
{
    if below { 2_147_483_648 } else { 2_147_483_647 }
}

fn tens(s: Scan, d: u64) -> Scan
    requires { d < 10 }
    ensures { result ≡ tens_after s d }
{
    let power = s.tens;
    if power < 214_748_365 {
        let next = power * 10 + d;
        if next <= most(s.below) {
            return Scan {
                phase: Phase::PowerDigits,
                tens: next,
                ..s
            };
        }
        return at(s, Phase::Bad);
    }
    at(s, Phase::Bad)
}

#[tactic(auto, unfolding(crate::specs::Scan::figure_after))]
fn figure(s: Scan, d: u64) -> Scan
    requires { d < 10 }
    ensures { result ≡ figure_after s d }
{
    match s.phase {
        Phase::Nothing | Phase::Minus | Phase::Digits => digit(s, d, 0, Phase::Digits),
        Phase::Point | Phase::Places => digit(s, d, 1, Phase::Places),
        Phase::Power | Phase::PowerSign | Phase::PowerDigits | Phase::Bad => tens(s, d),
    }
}

// The sign of the power.
#[tactic(auto, unfolding(crate::specs::Scan::sign_after))]
fn sign(s: Scan, below: bool) -> Scan
    ensures { result ≡ sign_after s below }
{
    match s.phase {
        Phase::Power => Scan {
            phase: Phase::PowerSign,
            below,
            ..s
        },
        _ => at(s, Phase::Bad),
    }
}

// A minus: that of the number, or of the power.
#[tactic(auto, unfolding(crate::specs::Scan::minus_after))]
fn minus(s: Scan) -> Scan
    ensures { result ≡ minus_after s }
{
    match s.phase {
        Phase::Nothing => Scan {
            phase: Phase::Minus,
            minus: true,
            ..s
        },
        _ => sign(s, true),
    }
}

#[tactic(auto, unfolding(crate::specs::Scan::point_after))]
fn point(s: Scan) -> Scan
    ensures { result ≡ point_after s }
{
    match s.phase {
        Phase::Digits => at(s, Phase::Point),
        _ => at(s, Phase::Bad),
    }
}

#[tactic(auto, unfolding(crate::specs::Scan::power_after))]
fn power(s: Scan) -> Scan
    ensures { result ≡ power_after s }
{
    match s.phase {
        Phase::Digits | Phase::Places => at(s, Phase::Power),
        _ => at(s, Phase::Bad),
    }
}

#[tactic(auto, unfolding(crate::specs::Scan::byte_after))]
pub fn step(s: Scan, b: u8) -> Scan
    ensures { result ≡ byte_after s b }
{
    if s.phase.is_bad() {
        return s;
    }
    match b {
        b'-' => minus(s),
        b'+' => sign(s, false),
        b'.' => point(s),
        b'0'..=b'9' => figure(s, (b - b'0') as u64),
        b'e' | b'E' => power(s),
        _ => at(s, Phase::Bad),
    }
}

// Whether a number may end here: after a digit.
#[tactic(auto, unfolding(crate::specs::Scan::is_whole))]
pub fn whole(s: Scan) -> bool
    ensures { result ≡ is_whole s }
{
    matches!(s.phase, Phase::Digits | Phase::Places | Phase::PowerDigits)
}
