// Laws only, no function: how large atan, ln and ln_1p can be at the arguments that RC and RJ ask for.
#![tactic(auto)]
