// When marks and moat records certify a plan: the checker's answer for any of them (specs/Check), what passing means in
// words of the survey (specs/Passing), and that whatever passes is accurate (specs/Laws/Accuracy). It holds no
// function.
#![tactic(auto)]
