// Laws only, no function: `Ring` solves identities and inequalities of polynomials over ℕ by computation, `Order` turns
// comparisons into facts and back, `Arms` is what the last arm of a match on a number knows. A crate above lists `algebra` and
// writes `use Rattle.algebra.specs.Ring.{..}`.
#![tactic(auto)]
