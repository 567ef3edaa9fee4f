// Laws only, no function: the shortest decimal that reads back as an f64, and why no other is shorter.
#![tactic(auto)]
