// Laws only, no function: the enclosures of atan, ln and ln_1p that document 01 gives ("What the leaves mean"), the whole-number
// rules for them, and that each rule's answer lies near every enclosure.
// To be read: `Quotient`, `Enclosure` (document 01's words), `Pieces` (the short polynomials), `Rules`, and
// `Answers` (what is proved).
// The road there: `Nested` (one enclosure is enough), `Expansion` (a partial sum is an exact polynomial), `Shifted`, `Floors`,
// `Rows`, `Slope` and `Values` (the short polynomial is near the exact one), `Atan`, `Steep`, `Logarithm`, `Seeds`, `Ln` (the
// rules), `Rise` and `Addition` (T(1/3) is T(s) + T(r)), `Below` (ln below 1), `Constants` (ln 2 and π/2), `Sizes` (enough
// digits, and not too many), `Tiny` (small arguments), `Examples`.
#![tactic(auto)]
