// Laws only, no function: how a computation in f64 scales by a power of two. Two runs stand side by side, the second with its
// arguments multiplied, and each operation has one rule that keeps them so.
#![tactic(auto)]
