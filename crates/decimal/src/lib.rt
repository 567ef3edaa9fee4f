// Laws only, no function: what a decimal number is, which f64 it is, and its leading binary digits.
#![tactic(auto)]
