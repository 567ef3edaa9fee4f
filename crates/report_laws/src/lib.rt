// Laws of the report of a work list (document 02, 2026-05): specs/.
#![tactic(auto)]
