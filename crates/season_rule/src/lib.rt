// The season's report: what adding a survey answers and what the report says. Definitions and laws in specs/, no
// functions.
#![tactic(auto)]

use base_limits::Verdict;

// Surveys of one report, at most.
pub const MAX_SURVEYS: u64 = 1000;

// Numbers of planning's refusals lie below this.
pub const REFUSAL_NUMBERS: usize = 19;

// Bytes that hold every report's text.
pub const REPORT_ROOM: usize = 747;

// The plan with the largest ratio of twice its cost to its bound: its position, the first survey being 0, and both
// numbers; or that no plan has a bound above 0.
#[derive(Clone, Copy)]
pub enum Farthest {
    Nothing,
    At {
        position: u64,
        twice: u64,
        bound: u64,
    },
}

// The report so far: surveys added, plans among them, their costs and bounds summed up, refusals by their number, and
// the farthest plan.
#[derive(Clone, Copy)]
pub struct Report {
    pub surveys: u64,
    pub planned: u64,
    pub cost: u64,
    pub bound: u64,
    pub refused: [u64; REFUSAL_NUMBERS],
    pub farthest: Farthest,
}

// What adding a survey answers: 3 or nothing, and the report after it.
#[derive(Drop)]
pub struct Added {
    pub verdict: Verdict,
    pub report: Report,
}
