// Laws only, no function: RC and RJ's helper ask ln at no finite number below 2, and ln_1p at none outside -3/4 to 3/4.
#![tactic(auto)]
