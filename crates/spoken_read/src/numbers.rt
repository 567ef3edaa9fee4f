// The numbers of a line.
ghost use Rattle.std.specs.Prelude.{◌≡◌, ◌+◌, ◌≤◌, length, if◌then◌else◌, nat_eq, nat_lt};
ghost use Rattle.spoken_read.specs.Numbers.{with_number, place_of, told_at, taken_of};

use crate::line_words::{begins, ends};
use binary64::split;
use decimal_read::{NoDecimal, read};
use spoken_parts::Bad;

// The patterns of up to four numbers; one more is counted, and none after it. Each has its name, and they are no array, since a
// call takes them one by one.
#[derive(Clone, Copy)]
pub struct Numbers {
    pub count: u64,
    pub a: u64,
    pub b: u64,
    pub c: u64,
    pub d: u64,
}

// Five are as many as more.
fn counted(count: u64) -> u64
    ensures { result ≡ (if nat_lt count 5 then count + 1 else count) }
{
    if count < 5 { count + 1 } else { count }
}

// At the place whose turn it is the new number, at others what they hold.
fn kept(count: u64, place: u64, x: u64, held: u64) -> u64
    ensures { result ≡ (if nat_eq count place then x else held) }
{
    if count == place { x } else { held }
}

#[tactic(auto, unfolding(crate::specs::Numbers::with_number))]
fn with(so: Numbers, x: u64) -> Numbers
    ensures { result ≡ with_number so x }
{
    Numbers {
        count: counted(so.count),
        a: kept(so.count, 0, x, so.a),
        b: kept(so.count, 1, x, so.b),
        c: kept(so.count, 2, x, so.c),
        d: kept(so.count, 3, x, so.d),
    }
}

// Counted from 1, where people read it.
fn place(at: usize, more: usize) -> u64
    ensures { result ≡ place_of at more }
{
    std::num::wrapping_add_u64(std::num::wrapping_add_u64(at as u64, more as u64), 1)
}

// Why the word that begins at a place is no number.
#[tactic(auto, unfolding(crate::specs::Numbers::told_at))]
fn told(at: usize, why: NoDecimal) -> Bad
    ensures { result ≡ told_at at why }
{
    match why {
        NoDecimal::TooLarge => Bad::TooLarge(place(at, 0)),
        NoDecimal::NoNumber(i) => Bad::NoNumber(place(at, i)),
    }
}

// The numbers from a place on.
pub fn read_all(line: &[u8], start: usize) -> Result<Numbers, Bad>
    requires { start ≤ length line.now }
    ensures { result ≡ taken_of line.now start }
{
    let mut so = Numbers {
        count: 0,
        a: 0,
        b: 0,
        c: 0,
        d: 0,
    };
    let mut at = begins(line, start);
    // Each word says itself where the next one begins, so there is no index to count.
    while at < line.len() {
        let end = ends(line, at);
        match read(&line[at..end]) {
            Ok(x) => {
                so = with(so, split(x));
            }
            Err(why) => {
                return Err(told(at, why));
            }
        }
        at = begins(line, end);
    }
    Ok(so)
}
