// The picked tracks by themselves: a survey of these alone has the same plan, and dropping passes no others.
ghost use Rattle.std.specs.Prelude.{◌≡◌, get_or, length};
ghost use Rattle.base_finite.specs.Below.{counted, count_below, tabulate};
ghost use Rattle.base_limits.specs.Limits.{max_edges};
ghost use Rattle.theory_steiner.specs.Pruning.{picked};
ghost use Rattle.survey_core.specs.Survey.{survey_from, lent_survey, problem_of};
ghost use Rattle.survey_core.specs.Sound.{SurveySound};
ghost use Rattle.survey_components.specs.Labels.{picked_in};
ghost use Rattle.plan_rule.specs.Plan.{plan_of};
ghost use Rattle.plan_core.specs.Planned.{figures_joined};
ghost use Rattle.closed_rule.specs.Closed.{closed_outcome};
ghost use Rattle.closed_core.specs.LeftOut.{closed_of};
ghost use Rattle.closed_core.specs.Alone.{listed};

use base_buffer::{at, put};
use base_limits::{MAX_EDGES, MAX_VERTICES, Verdict};
use closed_rule::Closed;

// 1 for a picked track, else 0.
fn pick_of(picked: &[u8], e: usize) -> u8
    ensures { result ≡ counted (picked_in picked.now e) 1 }
{
    if survey_components::is_picked(picked, e) {
        return 1;
    }
    0
}

// The ends and prices of the picked tracks, one behind the other, and a 1 for each; answers how many they are. What is
// stored of a track that is not picked is stored over by the next.
fn list_picked(
    firsts: &[u32],
    seconds: &[u32],
    weights: &[u32],
    picked: &[u8; MAX_EDGES],
    starts: &mut [u32; MAX_VERTICES],
    ends: &mut [u32; MAX_VERTICES],
    prices: &mut [u32; MAX_VERTICES],
    ones: &mut [u8; MAX_EDGES],
) -> usize
    ensures value { result ≡ count_below (length firsts.now) (picked_in picked.now) }
    ensures fact { let list = listed (picked_in picked.now) in
        let m = length firsts.now in
        (starts.new ≡ list (λ e. get_or firsts.now e 0) m starts.old)
        × (ends.new ≡ list (λ e. get_or seconds.now e 0) m ends.old)
        × (prices.new ≡ list (λ e. get_or weights.now e 0) m prices.old)
        × (ones.new ≡ list (λ e. counted (picked_in picked.now e) 1) m ones.old) }
{
    let mut count = 0;
    for e in 0..firsts.len() {
        put(starts, count, at(firsts, e));
        put(ends, count, at(seconds, e));
        put(prices, count, at(weights, e));
        let one = pick_of(picked, e);
        base_buffer::put(ones, count, one);
        count += usize::from(one);
    }
    count
}

// What is answered for poured lists, of the growth's picks and its bound.
pub fn kept_alone(
    groups: &[u8],
    firsts: &[u32],
    seconds: &[u32],
    weights: &[u32],
    picks: &[u8; MAX_EDGES],
    bound: u64,
) -> Closed
    requires survey_sound { SurveySound (survey_from groups.now firsts.now seconds.now weights.now) }
    requires picks_value { picks.now ≡ tabulate max_edges
        (λ e. counted (picked (problem_of (survey_from groups.now firsts.now seconds.now weights.now)) e) 1) }
    requires bound_value { bound
        ≡ (plan_of (problem_of (survey_from groups.now firsts.now seconds.now weights.now))).bound }
    ensures { closed_outcome result ≡ closed_of (figures_joined (lent_survey groups.now firsts.now seconds.now weights.now)) }
{
    let mut starts = [0u32; MAX_VERTICES];
    let mut ends = [0u32; MAX_VERTICES];
    let mut prices = [0u32; MAX_VERTICES];
    let mut ones = [0u8; MAX_EDGES];
    let mut marks = [0u8; MAX_VERTICES];
    let count = list_picked(
        firsts,
        seconds,
        weights,
        picks,
        &mut starts,
        &mut ends,
        &mut prices,
        &mut ones,
    );
    let part = &starts[0..count];
    let found = plan_drop::prune_picks(groups, part, &ends[0..count], &ones, &mut marks);
    let Verdict::Fine = found else {
        return Closed::Refused {
            number: 8,
            place: 0,
        };
    };
    let cost = check_core::kept_cost(part, &prices[0..count], &marks);
    Closed::Finished { cost, bound }
}
