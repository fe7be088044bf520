// A survey as it is lent: its lists (specs/Lists), what it asks of a plan (specs/Survey), what is refused of it and
// what that leaves (specs/Refusal, Pairs, Sound), and the accuracy rule (specs/Accuracy). It holds no function.
#![tactic(auto)]
