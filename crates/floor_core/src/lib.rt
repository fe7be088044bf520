// A floor under every set of tracks that joins every group, by dual ascent over directed cuts, with the plan's figures.
// Definitions and promises in floor_rule.
#![tactic(auto)]

ghost use Rattle.std.specs.Prelude.{◌≡◌};
ghost use Rattle.survey_core.specs.Survey.{survey_with, lent_with};
ghost use Rattle.survey_core.specs.Sound.{SurveySound};
ghost use Rattle.floor_rule.specs.Floor.{greater, half_up, ascent_of, flooring, floored_outcome};
ghost use Rattle.floor_rule.specs.Promise.{FloorPromises};
ghost use Rattle.plan_rule.specs.declared.Figured.TheVariants.{Finished};

use crate::number::numbered;
use crate::shares::ascent_floor;
use base_limits::MAX_EDGES;
use floor_rule::Floored;
use plan_rule::Figured;

mod arcs;
mod ascent;
mod chain;
mod cut;
mod number;
mod shares;
mod walk;

// The floor of the ascent over the survey's lists, poured together.
fn ascent_of(
    groups: &[u8],
    firsts: &[u32],
    seconds: &[u32],
    weights: &[u32],
    owners: &[u32],
    others: &[u8],
) -> u64
    requires { SurveySound
        (survey_with groups.now firsts.now seconds.now weights.now owners.now others.now) }
    ensures { result ≡ ascent_of (lent_with groups.now firsts.now seconds.now weights.now owners.now others.now) }
{
    let n = groups.len();
    let poured = survey_lists::pour::pour(groups, owners, others);
    let room = numbered(&poured[0..n], groups, owners, others);
    ascent_floor(&room[0..n], firsts, seconds, weights)
}

// The greater of the ascent's floor and half the bound, rounded up.
fn greater_half(ascent: u64, bound: u64) -> u64
    ensures { result ≡ greater ascent (half_up bound) }
{
    ascent.max(bound.div_ceil(2))
}

// The floor, k, cost and bound; or planning's refusals but 7, in its order. No set of tracks that joins every group
// costs less than the floor, and where the plan costs no more it is a cheapest one.
pub fn floor(
    groups: &[u8],
    firsts: &[u32],
    seconds: &[u32],
    weights: &[u32],
    owners: &[u32],
    others: &[u8],
) -> Floored
    ensures result_value { floored_outcome result ≡ flooring (lent_with groups.now firsts.now seconds.now weights.now owners.now others.now) }
    ensures promises { let s = lent_with groups.now firsts.now seconds.now weights.now owners.now others.now in
        FloorPromises s (floored_outcome result) }
{
    let mut marks = [0u8; MAX_EDGES];
    let figured = plan_core::figures::figures(
        groups, firsts, seconds, weights, owners, others, &mut marks,
    );
    match figured {
        Figured::Finished {
            terminals,
            cost,
            bound,
            rounds: _,
        } => {
            let ascent = ascent_of(groups, firsts, seconds, weights, owners, others);
            Floored::Finished {
                floor: greater_half(ascent, bound),
                terminals,
                cost,
                bound,
            }
        }
        Figured::Refused { number, place } => Floored::Refused { number, place },
    }
}
