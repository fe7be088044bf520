// Sums, counts and searches over the numbers below a bound, and laws about them, for every crate above. Definitions in
// specs/Below; it holds no function.
#![tactic(auto)]
