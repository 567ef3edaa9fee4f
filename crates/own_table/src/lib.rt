// Laws only, no function: what our own listing gives is accepted with no tolerance (document 02, 2026-11).
#![tactic(auto)]
