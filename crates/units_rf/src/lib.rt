// Laws only, no function: units drop out of RC and RF (demand 3). `Rc` and `Rf` end with the claims.
#![tactic(auto)]
