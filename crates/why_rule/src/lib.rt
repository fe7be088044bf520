// Why a track is on the sheet: the reason for each mark (specs/Reason), when it is true (specs/True), what the call
// answers and writes (specs/Why) and promises (specs/Promise). It holds the type of the answer, and no function.
#![tactic(auto)]

// What the call answers. Kept: the lowest list parted without the track, the lowest pair of its members so parted, and
// how many entries the kept route between them has. Dropped: no list needs it. Passed, for a track that was not picked:
// the round after which its ends were first in one component, 0 for never. Or a refusal's number and place.
#[derive(Drop)]
pub enum Why {
    Kept {
        group: u64,
        smaller: u64,
        larger: u64,
        entries: u64,
    },
    Dropped,
    Passed {
        round: u64,
    },
    Refused {
        number: u64,
        place: usize,
    },
}
