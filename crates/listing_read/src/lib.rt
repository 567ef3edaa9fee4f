// A line of the listing to a call (document 01): a name, then each argument as one blank and sixteen upper-case hex digits.
#![tactic(auto)]

ghost use Rattle.std.specs.Prelude.{◌≡◌, ◌+◌, ◌≤◌, [], ◌∷◌, Some, length};
ghost use Rattle.listing_read.specs.Lines.{argument_length, line_length, word_at, same, named, read_as, call_of};

use calls::Call;
use digits::number;

// An argument: a blank and sixteen digits.
const ARGUMENT: usize = 17;

const TWO: usize = 2 + 2 * ARGUMENT;

const THREE: usize = 2 + 3 * ARGUMENT;

const FOUR: usize = 2 + 4 * ARGUMENT;

// With cel's longer name.
const LONG_FOUR: usize = 3 + 4 * ARGUMENT;

// No good line is longer.
pub const LONGEST: usize = LONG_FOUR;

// The argument whose blank stands at `at`.
#[tactic(auto, unfolding(crate::specs::Lines::word_at, digits::specs::Digits::number_of))]
fn argument(line: &[u8], at: usize) -> Option<u64>
    requires { at + argument_length ≤ length line.now }
    ensures { result ≡ word_at line.now at }
{
    if line[at] != b' ' {
        return None;
    }
    number(&line[at + 1..at + ARGUMENT], 16)
}

pub fn is_name(text: &[u8], name: &[u8]) -> bool
    ensures { result ≡ same text.now name.now }
{
    text == name
}

// A line of two arguments. `two`, `three` and `four` stay three: each makes calls of its own size.
#[tactic(auto, unfolding(crate::specs::Lines::words_at, crate::specs::Lines::named, calls::specs::Calls::name_of))]
fn two(line: &[u8]) -> Option<Call>
    requires { length line.now ≡ line_length 2 2 }
    ensures { result ≡ read_as 2 2 line.now }
{
    let x = argument(line, 2)?;
    let y = argument(line, 19)?;
    let name = &line[..2];
    if is_name(name, b"RC") {
        return Some(Call::Rc(x, y));
    }
    None
}

#[tactic(auto, unfolding(crate::specs::Lines::words_at, crate::specs::Lines::named, calls::specs::Calls::name_of))]
fn three(line: &[u8]) -> Option<Call>
    requires { length line.now ≡ line_length 2 3 }
    ensures { result ≡ read_as 2 3 line.now }
{
    let x = argument(line, 2)?;
    let y = argument(line, 19)?;
    let z = argument(line, 36)?;
    let name = &line[..2];
    if is_name(name, b"RF") {
        return Some(Call::Rf(x, y, z));
    }
    if is_name(name, b"RD") {
        return Some(Call::Rd(x, y, z));
    }
    if is_name(name, b"RG") {
        return Some(Call::Rg(x, y, z));
    }
    None
}

// Of a name of so many bytes.
#[tactic(auto, unfolding(crate::specs::Lines::words_at, crate::specs::Lines::named, calls::specs::Calls::name_of))]
fn four(line: &[u8], size: usize) -> Option<Call>
    requires { (size ≤ 3) × (length line.now ≡ line_length size 4) }
    ensures { result ≡ read_as size 4 line.now }
{
    let second = size + ARGUMENT;
    let third = second + ARGUMENT;
    let x = argument(line, size)?;
    let y = argument(line, second)?;
    let z = argument(line, third)?;
    let p = argument(line, third + ARGUMENT)?;
    let name = &line[..size];
    if is_name(name, b"RJ") {
        return Some(Call::Rj(x, y, z, p));
    }
    if is_name(name, b"CEL") {
        return Some(Call::Cel(x, y, z, p));
    }
    None
}

// What a line asks, given without its newline. Every other form is bad: another length, a blank too many, a lower-case digit.
#[tactic(auto, unfolding(crate::specs::Lines::call_of))]
pub fn call_of(line: &[u8]) -> Option<Call>
    ensures { result ≡ call_of line.now }
{
    match line.len() {
        TWO => two(line),
        THREE => three(line),
        FOUR => four(line, 2),
        LONG_FOUR => four(line, 3),
        _ => None,
    }
}
