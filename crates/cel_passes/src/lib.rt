// cel's passes: from the arguments to the value, before anything is refused.
#![tactic(auto)]

pub mod passes;
