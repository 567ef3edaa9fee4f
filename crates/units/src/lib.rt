// Laws only, no function: demand 3, that units drop out. `Statement` says what is claimed, of every entry alike; the rest is what
// the proofs for the entries share: from the claim's premises to the rules of `scaling`, through a capped loop, and back.
#![tactic(auto)]
