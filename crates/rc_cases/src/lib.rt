// RC's closed forms (elliprc.rs): the value, before anything is refused or rescaled.
#![tactic(auto)]

pub mod cases;
mod roots;
