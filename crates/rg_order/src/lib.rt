// Laws only, no function: RG's answer is the same in all six orders of its arguments, where none is NaN and none is -0 (document
// 02, 2026-13).
#![tactic(auto)]
