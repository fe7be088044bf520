// Refusals 1 to 6 of a survey.
ghost use Rattle.std.specs.Prelude.{◌≡◌, ◌≤◌, length, get_or};
ghost use Rattle.base_finite.specs.Below.{counted, any_below};
ghost use Rattle.base_limits.specs.Limits.{max_vertices};
ghost use Rattle.base_limits.specs.Verdict.{lowest_below};
ghost use Rattle.survey_core.specs.Survey.{lent_survey, edge_count};
ghost use Rattle.survey_core.specs.Refusal.{edge_refusal, survey_refusal};
ghost use Rattle.survey_refusal.specs.Fault.{faulty};

use base_limits::{MAX_EDGES, MAX_VERTICES, Verdict};

// 1 if something is wrong with some track. The loop runs to its end, so that several are tested at once.
fn edges_fault(n: u32, firsts: &[u32], seconds: &[u32], weights: &[u32]) -> u32
    ensures { result ≡ counted (any_below (length firsts.now)
        (λ e. faulty n (get_or firsts.now e 0) (get_or seconds.now e 0) (get_or weights.now e 0))) 1 }
{
    let mut found = 0;
    for e in 0..firsts.len() {
        found |= crate::fault::edge_fault(
            n,
            base_buffer::at(firsts, e),
            base_buffer::at(seconds, e),
            base_buffer::at(weights, e),
        );
    }
    found
}

// What is wrong with the lowest track that has something wrong.
fn lowest_refusal(groups: &[u8], firsts: &[u32], seconds: &[u32], weights: &[u32]) -> Verdict
    ensures { let s = lent_survey groups.now firsts.now seconds.now weights.now in
        result ≡ lowest_below (edge_count s) (edge_refusal s) }
{
    for e in 0..firsts.len() {
        let found = crate::track::edge_refusal(groups, firsts, seconds, weights, e);
        let Verdict::Fine = found else {
            return found;
        };
    }
    Verdict::Fine
}

// The same: the tracks are gone through only where something is wrong with one.
fn edges_refusal(groups: &[u8], firsts: &[u32], seconds: &[u32], weights: &[u32]) -> Verdict
    requires { length groups.now ≤ max_vertices }
    ensures { let s = lent_survey groups.now firsts.now seconds.now weights.now in
        result ≡ lowest_below (edge_count s) (edge_refusal s) }
{
    if edges_fault(groups.len() as u32, firsts, seconds, weights) == 0 {
        return Verdict::Fine;
    }
    lowest_refusal(groups, firsts, seconds, weights)
}

// 1, 2 and 3, then the tracks rising.
pub fn survey_refusal(groups: &[u8], firsts: &[u32], seconds: &[u32], weights: &[u32]) -> Verdict
    ensures { result ≡ survey_refusal (lent_survey groups.now firsts.now seconds.now weights.now) }
{
    if groups.len() == 0 {
        return Verdict::Refused {
            number: 1,
            place: 0,
        };
    }
    if MAX_VERTICES < groups.len() {
        return Verdict::Refused {
            number: 1,
            place: 0,
        };
    }
    if firsts.len() != seconds.len() {
        return Verdict::Refused {
            number: 2,
            place: 0,
        };
    }
    if firsts.len() != weights.len() {
        return Verdict::Refused {
            number: 2,
            place: 0,
        };
    }
    if MAX_EDGES < firsts.len() {
        return Verdict::Refused {
            number: 3,
            place: 0,
        };
    }
    edges_refusal(groups, firsts, seconds, weights)
}
