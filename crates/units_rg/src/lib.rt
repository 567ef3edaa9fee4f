// Laws only, no function: units drop out of RG (demand 3). `Rg` ends with the claim.
#![tactic(auto)]
