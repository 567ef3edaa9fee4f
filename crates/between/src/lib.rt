// Laws only: an f64 between two others, carried through each operation.
#![tactic(auto)]
