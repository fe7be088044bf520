// Graphs given by their edges' endpoints: paths, cuts and forests (specs/Path), component labels (specs/Component).
// Labels are equal exactly if the edges link. It holds no function.
#![tactic(auto)]
