// Laws only, no function: what is written of an f64 is read as that f64.
#![tactic(auto)]
