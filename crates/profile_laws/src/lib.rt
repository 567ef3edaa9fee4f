// Laws only, no function: what is claimed of the bench profile over a call (document 02, 2026-14): any order, any unit, its
// sizes.
#![tactic(auto)]
