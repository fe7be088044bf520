// Worked by computation: P1 to P12 and two surveys with pairs (specs/Examples), marks altered by hand (specs/Altered),
// STP files (specs/StpExamples). It holds no function.
#![tactic(auto)]
