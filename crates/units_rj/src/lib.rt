// Laws only, no function: demand 3 for RJ with p above zero, stated of its definition.
#![tactic(auto)]
