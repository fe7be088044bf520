// 18: the lowest pair that is refused.
ghost use Rattle.std.specs.Prelude.{◌≡◌};
ghost use Rattle.survey_core.specs.Lists.{lent_lists};
ghost use Rattle.survey_core.specs.Pairs.{is_rising, pair_refusal, pairs_refusal};

use base_buffer::at;
use base_limits::{MAX_PAIRS, Verdict};

// Whether pair i stands above the one before it, by vertex, then by group.
fn is_rising(owners: &[u32], others: &[u8], i: usize) -> bool
    ensures { result ≡ is_rising owners.now others.now i }
{
    if i == 0 {
        return true;
    }
    let before = at(owners, i - 1);
    let owner = at(owners, i);
    if before < owner {
        return true;
    }
    if owner < before {
        return false;
    }
    if at(others, i - 1) < at(others, i) {
        return true;
    }
    false
}

// What is wrong with one pair: 18.
fn pair_refusal(groups: &[u8], owners: &[u32], others: &[u8], i: usize) -> Verdict
    ensures { result ≡ pair_refusal (lent_lists groups.now owners.now others.now) i }
{
    let owner = at(owners, i) as usize;
    let other = at(others, i);
    if groups.len() <= owner {
        return Verdict::Refused {
            number: 18,
            place: i,
        };
    }
    if other == 0 {
        return Verdict::Refused {
            number: 18,
            place: i,
        };
    }
    if other == at(groups, owner) {
        return Verdict::Refused {
            number: 18,
            place: i,
        };
    }
    if !is_rising(owners, others, i) {
        return Verdict::Refused {
            number: 18,
            place: i,
        };
    }
    if MAX_PAIRS <= i {
        return Verdict::Refused {
            number: 18,
            place: i,
        };
    }
    Verdict::Fine
}

// What is wrong with the lowest pair that has something wrong.
pub fn pairs_refusal(groups: &[u8], owners: &[u32], others: &[u8]) -> Verdict
    ensures { result ≡ pairs_refusal (lent_lists groups.now owners.now others.now) }
{
    for i in 0..owners.len() {
        let found = pair_refusal(groups, owners, others, i);
        let Verdict::Fine = found else {
            return found;
        };
    }
    Verdict::Fine
}
