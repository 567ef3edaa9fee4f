// Laws only: the constants of document 01 that are what a formula says, shown to be so.
#![tactic(auto)]
