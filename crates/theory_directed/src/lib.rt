// Directed cuts and what they prove of every set that joins (specs/Directed): shares that lists of cuts cover, one list
// for each group that may be the lowest of its tree, come to at most its cost. It holds no function.
#![tactic(auto)]
