// The limits of the papers, each in this one place, with what follows from them, and what a check answers (`Verdict`).
// Definitions in specs/Limits, under the same names, and specs/Verdict; specs/Laws/Limits says the papers' figures.
#![tactic(auto)]

// Vertices, edges, an edge's weight, a dual's value in half units: at most.
pub const MAX_VERTICES: usize = 448;

pub const MAX_EDGES: usize = 2048;

pub const MAX_WEIGHT: u32 = 100000000;

pub const MAX_VALUE: u64 = 2 * (MAX_WEIGHT as u64);

// Group numbers lie below this.
pub const GROUP_NUMBERS: usize = 256;

// Pairs of a vertex and a further group, at most.
pub const MAX_PAIRS: usize = 256;

// Bytes of a dual's record: its value, its members, the whole.
pub const VALUE_BYTES: usize = 8;

pub const MEMBER_BYTES: usize = MAX_VERTICES / 8;

pub const RECORD_BYTES: usize = VALUE_BYTES + MEMBER_BYTES;

// Duals, at most, and the bytes of so many records.
pub const MAX_DUALS: usize = 2 * MAX_VERTICES - 1;

pub const RECORDS_ROOM: usize = RECORD_BYTES * MAX_DUALS;

// Edges of a route, at most.
pub const MAX_ROUTE: usize = MAX_VERTICES - 1;

// Digits of a number in a survey's text, at most: a count, a group, an endpoint, a weight, a number of an also line.
pub const COUNT_DIGITS: usize = 7;

pub const GROUP_DIGITS: usize = 7;

pub const ENDPOINT_DIGITS: usize = 3;

pub const WEIGHT_DIGITS: usize = 9;

pub const ALSO_DIGITS: usize = 3;

// Digits of a number in a printed plan, at most: a figure (sites, cost, bound, rounds), a kept edge, a dual's value,
// a member.
pub const FIGURE_DIGITS: usize = 12;

pub const KEPT_DIGITS: usize = 7;

pub const VALUE_DIGITS: usize = 9;

pub const MEMBER_DIGITS: usize = 7;

// No number of a text has more digits.
pub const MAX_DIGITS: usize = FIGURE_DIGITS;

// Digits of a 64-bit number, at most.
pub const WORD_DIGITS: usize = 20;

// Bytes of all members with commas between, for 100 to 1,000 vertices; and of the longest dual line, which has 7 more
// and the value.
pub const LONGEST_MEMBERS: usize = 4 * MAX_VERTICES - 111;

pub const LONGEST_DUAL: usize = 7 + WORD_DIGITS + LONGEST_MEMBERS;

// Bytes that hold every dual line; a plan's lines of counts; the line of a kept edge; every plan within the limits.
pub const DUAL_ROOM: usize = 2048;

pub const COUNTS_ROOM: usize = 24 + 4 * (WORD_DIGITS + 1);

pub const KEPT_ROOM: usize = 10;

pub const PLAN_ROOM: usize = COUNTS_ROOM + KEPT_ROOM * MAX_EDGES + LONGEST_DUAL * MAX_DUALS;

// Bytes that hold every reason: five numbers and their lines, and five bytes for each edge of a route.
pub const WHY_ROOM: usize = 37 + 5 * WORD_DIGITS + 5 * MAX_ROUTE;

// Bytes that the programs `plan` and `why`, and `verify`, read, at most: every survey's text, and every survey's text
// with a plan's behind it.
pub const SURVEY_ROOM: usize = 65536;

pub const VERIFY_ROOM: usize = 2097152;

// A refusal is its number and its place; `Fine` where none applies.
#[derive(Clone, Copy)]
pub enum Verdict {
    Fine,
    Refused { number: u64, place: usize },
}
