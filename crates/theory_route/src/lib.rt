// Routes between two vertices of a forest (specs/Route): linked vertices have one, and only one. It holds no function.
#![tactic(auto)]
