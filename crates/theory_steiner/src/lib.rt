// Steiner forest by growing duals (source 001, Algorithm 22.3), with the factor 2 - 2/k of source 003. Definitions in
// specs/: Problem, Growth, Dual, Pruning, Rounds, Minima, Requirement; the theorems in specs/Laws. It holds no
// function.
#![tactic(auto)]
