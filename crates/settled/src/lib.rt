// Laws only, no function: document 01's sixteen settled examples, computed from the definitions of the five entries as one table.
#![tactic(auto)]
