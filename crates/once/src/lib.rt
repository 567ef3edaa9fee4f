// Laws only, no function: a call that is rescaled is rescaled once. The Rust calls itself at the scaled arguments, our
// definitions go on to the steps; this shows the two the same.
#![tactic(auto)]
