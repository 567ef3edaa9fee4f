// A call of an entry, its arguments as bit patterns. What is said of a call is specs/Calls.antt's: its name, its arguments, its
// function's number.
#![tactic(auto)]

#[derive(Clone, Copy)]
pub enum Call {
    Rc(u64, u64),
    Rf(u64, u64, u64),
    Rd(u64, u64, u64),
    Rg(u64, u64, u64),
    Rj(u64, u64, u64, u64),
    Cel(u64, u64, u64, u64),
}
