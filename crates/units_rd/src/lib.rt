// Laws only, no function: demand 3 for RD, stated of its definition.
#![tactic(auto)]
