// A line to what is said to it.
ghost use Rattle.std.specs.Prelude.{◌≡◌, ◌<◌, length, ◌==◌};
ghost use Rattle.spoken_read.specs.Lines.{
  lower_of,
  spelled_of,
  called_of,
  wants_of,
  entry_of,
  by_function,
  with_numbers,
  to_call,
  said_to,
};

use crate::line_words::{begins, ends};
use crate::numbers::{Numbers, read_all};
use answers::answer_of;
use binary64::join;
use calls::Call;
use carlson::answer::Answer;
use root::sqrt;
use series::{atan, ln, ln_1p};
use spoken_parts::{Bad, Said};

#[derive(Clone, Copy)]
enum Function {
    Rc,
    Rf,
    Rd,
    Rg,
    Rj,
    Cel,
    Sqrt,
    Ln,
    Ln1p,
    Atan,
}

// So many bytes are held of a line.
const ROW: usize = 128;

// No name is longer: ln_1p.
const LONGEST: usize = 5;

const HELD: u64 = 0x100_0000_0000; // 2^40: the 1 and four letters are less

#[tactic(auto, unfolding(crate::specs::Lines::lower_of))]
fn lower(b: u8) -> u8
    ensures { result ≡ lower_of b }
{
    match b {
        b'A'..=b'Z' => b + 32,
        _ => b,
    }
}

// A word's bytes in lower case as one number, after a 1 that keeps those in front from being lost; of a longer word 0.
fn spelled(word: &[u8]) -> u64
    ensures { result ≡ spelled_of word.now }
{
    if word.len() > LONGEST {
        return 0;
    }
    let mut n: u64 = 1;
    for b in word {
        n = n % HELD * 256 + lower(*b) as u64;
    }
    n
}

// In lower or upper case.
#[tactic(auto, unfolding(crate::specs::Lines::called_of, crate::specs::Lines::called_by))]
fn called(word: &[u8]) -> Option<Function>
    ensures { result ≡ called_of word.now }
{
    match spelled(word) {
        0x1_7263 => Some(Function::Rc), // rc
        0x1_7266 => Some(Function::Rf), // rf
        0x1_7264 => Some(Function::Rd), // rd
        0x1_7267 => Some(Function::Rg), // rg
        0x1_726a => Some(Function::Rj), // rj
        0x163_656c => Some(Function::Cel), // cel
        0x1_7371_7274 => Some(Function::Sqrt), // sqrt
        0x1_6c6e => Some(Function::Ln), // ln
        0x16c_6e5f_3170 => Some(Function::Ln1p), // ln_1p
        0x1_6174_616e => Some(Function::Atan), // atan
        _ => None,
    }
}

#[tactic(auto, unfolding(crate::specs::Lines::wants_of))]
fn wants(function: Function) -> u64
    ensures { result ≡ wants_of function }
{
    match function {
        Function::Rc => 2,
        Function::Rf | Function::Rd | Function::Rg => 3,
        Function::Rj | Function::Cel => 4,
        Function::Sqrt | Function::Ln | Function::Ln1p | Function::Atan => 1,
    }
}

#[tactic(auto, unfolding(crate::specs::Lines::entry_of))]
fn entry(call: Call) -> Said
    ensures { result ≡ entry_of call }
{
    match answer_of(call) {
        Ok(found) => Said::Value(found),
        Err(refusal) => Said::Refused(refusal),
    }
}

#[tactic(auto, unfolding(crate::specs::Lines::by_function))]
fn by(function: Function, n: Numbers) -> Said
    ensures { result ≡ by_function function n }
{
    match function {
        Function::Rc => entry(Call::Rc(n.a, n.b)),
        Function::Rf => entry(Call::Rf(n.a, n.b, n.c)),
        Function::Rd => entry(Call::Rd(n.a, n.b, n.c)),
        Function::Rg => entry(Call::Rg(n.a, n.b, n.c)),
        Function::Rj => entry(Call::Rj(n.a, n.b, n.c, n.d)),
        Function::Cel => entry(Call::Cel(n.a, n.b, n.c, n.d)),
        Function::Sqrt => Said::Leaf(sqrt(join(n.a))),
        Function::Ln => Said::Leaf(ln(join(n.a))),
        Function::Ln1p => Said::Leaf(ln_1p(join(n.a))),
        Function::Atan => Said::Leaf(atan(join(n.a))),
    }
}

// As many numbers as the function wants, or how many these are.
#[tactic(auto, unfolding(crate::specs::Lines::with_numbers))]
fn with_numbers(function: Function, n: Numbers) -> Result<Said, Bad>
    ensures { result ≡ with_numbers function n }
{
    let wanted = wants(function);
    if n.count == wanted {
        return Ok(by(function, n));
    }
    Err(Bad::Wanted(wanted))
}

// To a line whose first word begins at `at`.
#[tactic(auto, unfolding(crate::specs::Lines::to_call, crate::specs::Words::word_at))]
fn to_call(line: &[u8], at: usize) -> Result<Said, Bad>
    requires { at < length line.now }
    ensures { result ≡ to_call line.now at }
{
    let end = ends(line, at);
    let function = called(&line[at..end]).ok_or(Bad::NoFunction)?;
    let numbers = read_all(line, end)?;
    with_numbers(function, numbers)
}

// Of a row that fills what is held it is not known whether it ends there.
#[tactic(auto, unfolding(crate::specs::Lines::said_to))]
pub fn said_to(line: &[u8]) -> Said
    ensures { result ≡ said_to line.now }
{
    let at = begins(line, 0);
    if at >= line.len() {
        return Said::Nothing;
    }
    if line.len() >= ROW {
        return Said::Bad(Bad::TooLong);
    }
    match to_call(line, at) {
        Ok(said) => said,
        Err(bad) => Said::Bad(bad),
    }
}
