// Laws only, no function: what it is to round once. `Cut` has the definition, for a number known by comparison with
// fractions; `Laws` that the answer is nearest and the only one; `Fraction` that at a fraction it is the library's `round`;
// `Jam` the laws of a number whose lost digits are kept as one bit.
#![tactic(auto)]
