// Tests the pair of an also line.
ghost use Rattle.std.specs.Prelude.{◌≡◌};
ghost use Rattle.format_also.specs.Pair.{pair_of, rank, also_test};

use base_buffer::at;
use base_limits::{GROUP_NUMBERS, Verdict};

// Group numbers lie below it.
const GROUPS: u64 = GROUP_NUMBERS as u64;

// The number by which pairs rise.
pub fn rank(owner: u32, other: u32) -> u64
    ensures { result ≡ rank (pair_of owner other) }
{
    GROUPS * owner as u64 + other as u64 + 1
}

// The tests of pair i: 17, then 18, then 7.
pub fn pair_test(groups: &[u8], room: usize, low: u64, i: usize, owner: u32, other: u32) -> Verdict
    ensures { result ≡ also_test groups.now room low i (pair_of owner other) }
{
    let place = owner as usize;
    let own = u64::from(at(groups, place));
    let above = rank(owner, other);
    if GROUPS <= other as u64 {
        return Verdict::Refused { number: 17, place };
    }
    if groups.len() <= place {
        return Verdict::Refused {
            number: 18,
            place: i,
        };
    }
    if other == 0 {
        return Verdict::Refused {
            number: 18,
            place: i,
        };
    }
    if other as u64 == own {
        return Verdict::Refused {
            number: 18,
            place: i,
        };
    }
    if above <= low {
        return Verdict::Refused {
            number: 18,
            place: i,
        };
    }
    if room <= i {
        return Verdict::Refused {
            number: 7,
            place: 0,
        };
    }
    Verdict::Fine
}
