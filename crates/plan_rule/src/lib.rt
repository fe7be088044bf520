// What planning, growing and dropping answer and write (specs/Plan, Growing, Dropping), and what each promises
// (specs/Promise, DropPromise, Stages, Poured). It holds the types of the answers, and no function.
#![tactic(auto)]

// What planning answers, and growing with cost 0: k, cost, bound, rounds and the number of moats; or a refusal's
// number and place.
#[derive(Drop)]
pub enum Planned {
    Finished {
        terminals: u64,
        cost: u64,
        bound: u64,
        rounds: u64,
        duals: u64,
    },
    Refused {
        number: u64,
        place: usize,
    },
}

// What dropping answers: k and what the kept tracks cost; or a refusal's number and place.
#[derive(Drop)]
pub enum Dropped {
    Finished { terminals: u64, cost: u64 },
    Refused { number: u64, place: usize },
}

// What planning without moats answers: k, cost, bound and rounds; or a refusal's number and place.
#[derive(Clone, Copy)]
pub enum Figured {
    Finished {
        terminals: u64,
        cost: u64,
        bound: u64,
        rounds: u64,
    },
    Refused {
        number: u64,
        place: usize,
    },
}
