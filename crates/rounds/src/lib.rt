// Laws only, no function: how many rounds a call can be, and can begin inside where it ends in a refusal (document 02, 2026-12).
#![tactic(auto)]
