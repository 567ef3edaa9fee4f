// Laws only, no function: every value that an entry hands out is one that an f64 holds.
#![tactic(auto)]
