// Groups that carry a strength: the survey is planned for each of four bits, for the groups whose strength has it, and
// a track that is kept counts 1, 2, 4 or 8 times. Definitions and promises in winter_rule.
#![tactic(auto)]

ghost use Rattle.std.specs.Prelude.{◌≡◌, ◌+◌, ◌<◌, length};
ghost use Rattle.theory_steiner.specs.Strength.{strength_bits};
ghost use Rattle.survey_core.specs.Survey.{survey_with, lent_with};
ghost use Rattle.survey_core.specs.Sound.{ByteGroups};
ghost use Rattle.winter_rule.specs.Winter.{total_price, wintering, copies_over, copies_after, winter_outcome};
ghost use Rattle.winter_rule.specs.Promise.{WinterReady, WinterPromises};
ghost use Rattle.winter_core.specs.Bit.{bit_price, CopiedFor, copies_for};

use crate::bit::power;
use crate::copies::{add_kept, clear, cost_of, plan_bit};
use crate::refusal::winter_refusal;
use base_limits::{MAX_EDGES, Verdict};
use winter_rule::{STRENGTH_BITS, Winter};

mod bit;
mod copies;
mod refusal;

pub use refusal::given_refusal;

// Copies for one bit more, and what they cost.
fn add_bit(
    groups: &[u8],
    firsts: &[u32],
    seconds: &[u32],
    weights: &[u32],
    owners: &[u32],
    others: &[u8],
    strengths: &[u8],
    bit: usize,
    copies: &mut [u8],
) -> u64
    requires byte_groups { ByteGroups
        (survey_with groups.now firsts.now seconds.now weights.now owners.now others.now) }
    requires winter_ready { WinterReady
        (survey_with groups.now firsts.now seconds.now weights.now owners.now others.now)
        strengths.now (length copies.old) }
    requires bit_lt_strength_bits { bit < strength_bits }
    requires copied_for { CopiedFor
        (survey_with groups.now firsts.now seconds.now weights.now owners.now others.now)
        strengths.now bit copies.old }
    ensures result_value { let s = lent_with groups.now firsts.now seconds.now weights.now owners.now others.now in
        result ≡ bit_price s strengths.now bit }
    ensures copies_value { let s = lent_with groups.now firsts.now seconds.now weights.now owners.now others.now in
        copies.new ≡ copies_for s strengths.now copies.old (bit + 1) }
{
    let mut marks = [0u8; MAX_EDGES];
    let figures = plan_bit(
        groups, firsts, seconds, weights, owners, others, strengths, bit, &mut marks,
    );
    let times = power(bit);
    add_kept(&marks, copies, firsts.len(), times);
    u64::from(times) * cost_of(figures)
}

// The copies for all bits, and what they cost.
fn add_bits(
    groups: &[u8],
    firsts: &[u32],
    seconds: &[u32],
    weights: &[u32],
    owners: &[u32],
    others: &[u8],
    strengths: &[u8],
    copies: &mut [u8],
) -> u64
    requires byte_groups { ByteGroups
        (survey_with groups.now firsts.now seconds.now weights.now owners.now others.now) }
    requires winter_ready { WinterReady
        (survey_with groups.now firsts.now seconds.now weights.now owners.now others.now)
        strengths.now (length copies.old) }
    ensures result_value { let s = lent_with groups.now firsts.now seconds.now weights.now owners.now others.now in
        result ≡ total_price s strengths.now }
    ensures copies_value { let s = lent_with groups.now firsts.now seconds.now weights.now owners.now others.now in
        copies.new ≡ copies_over s strengths.now copies.old }
{
    clear(copies, firsts.len());
    let mut total = 0;
    for bit in 0..STRENGTH_BITS {
        total += add_bit(
            groups, firsts, seconds, weights, owners, others, strengths, bit, copies,
        );
    }
    total
}

// Copies of tracks for groups that carry strengths from 1 to 15: `strengths` has that of group 1 first, and `copies`
// gets a byte for each track. Answers their total price. Refused are 1 to 6 and 18; 24 for a list of another length
// than 255, or at the lowest group with strength 0 or over 15; 7 for fewer bytes than tracks; 8 as in planning. The
// copies meet every strength, and no copies that do have a price which, times 4(2k - 2), is below k times theirs.
pub fn winter(
    groups: &[u8],
    firsts: &[u32],
    seconds: &[u32],
    weights: &[u32],
    owners: &[u32],
    others: &[u8],
    strengths: &[u8],
    copies: &mut [u8],
) -> Winter
    ensures result_value { let s = lent_with groups.now firsts.now seconds.now weights.now owners.now others.now in
        winter_outcome result ≡ wintering s strengths.now (length copies.old) }
    ensures copies_value { let s = lent_with groups.now firsts.now seconds.now weights.now owners.now others.now in
        copies.new ≡ copies_after s strengths.now copies.old }
    ensures promises { let s = lent_with groups.now firsts.now seconds.now weights.now owners.now others.now in
        WinterPromises s strengths.now copies.old copies.new (winter_outcome result) }
{
    let found = winter_refusal(
        groups,
        firsts,
        seconds,
        weights,
        owners,
        others,
        strengths,
        copies.len(),
    );
    if let Verdict::Refused { number, place } = found {
        return Winter::Refused { number, place };
    }
    let total = add_bits(
        groups, firsts, seconds, weights, owners, others, strengths, copies,
    );
    Winter::Finished { total }
}
