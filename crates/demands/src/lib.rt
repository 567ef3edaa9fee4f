// Laws only, no function: demands 1 and 3 of document 01 over a call, in one place.
#![tactic(auto)]
