// What several crates promise together: the pairs that reading accepts are the sound ones (specs/Laws/Sound), the
// longest text is reached (Longest), and every finished plan, printed, passes (Passes). It holds no function.
#![tactic(auto)]
