// Growing over arrays: rounds until no candidate is left, at most n - 1. What a round makes of any arrays is
// specs/Round, what they represent specs/Represents, what a growth leaves specs/Grown. `grow_rounds` answers the
// number of rounds and the sum of all moats, and leaves values, picks and their order; `grow` judges the survey first.
#![tactic(auto)]

ghost use Rattle.std.specs.Prelude.{◌≡◌, ◌^◌, ◌<◌, length, replicate, slice_set};
ghost use Rattle.base_limits.specs.Limits.{max_vertices, max_edges, max_duals};
ghost use Rattle.base_limits.specs.Verdict.{written};
ghost use Rattle.survey_core.specs.Refusal.{survey_refusal};
ghost use Rattle.survey_core.specs.Survey.{survey_from, lent_survey, problem_of};
ghost use Rattle.plan_rounds.specs.Grown.{growth_from, GrownAfter};
ghost use Rattle.survey_core.specs.Sound.{SurveySound};

use base_buffer::put;
use base_limits::{MAX_DUALS, MAX_EDGES, MAX_VERTICES, Verdict};
use plan_search::{MAX_BLOCKS, Winner};

mod both;
mod bound;
mod join;
mod round;
mod settle;
mod turn;

// What growing answers: how many rounds there were, and the sum of all duals.
#[derive(Drop)]
pub struct Grown {
    pub rounds: usize,
    pub bound: u64,
}

// Edge e is the pick of round r.
fn note_pick(picked: &mut [u8; MAX_EDGES], order: &mut [u32; MAX_VERTICES], e: usize, r: usize)
    requires { e < 2 ^ 32 }
    ensures picked_value { picked.new ≡ slice_set picked.old e 1 }
    ensures order_value { order.new ≡ slice_set order.old r e }
{
    put(picked, e, 1);
    put(order, r, e as u32);
}

// Rounds until no candidate is left, at most n - 1, of a survey that 1 to 6 do not refuse, from arrays that hold
// nothing yet.
pub fn grow_rounds(
    groups: &[u8],
    firsts: &[u32],
    seconds: &[u32],
    weights: &[u32],
    values: &mut [u64; MAX_DUALS],
    picked: &mut [u8; MAX_EDGES],
    order: &mut [u32; MAX_VERTICES],
) -> Grown
    requires survey_sound { SurveySound (survey_from groups.now firsts.now seconds.now weights.now) }
    requires values_value { (values.old ≡ replicate max_duals 0) × (picked.old ≡ replicate max_edges 0)
        × (order.old ≡ replicate max_vertices 0) }
    ensures { let p = problem_of (lent_survey groups.now firsts.now seconds.now weights.now) in
        let g = growth_from result.rounds result.bound values.new picked.new order.new in
        GrownAfter p (length groups.now) g }
{
    let mut labels = [0u32; MAX_VERTICES];
    let mut loads = [0u64; MAX_VERTICES];
    let mut keys = [0u64; MAX_EDGES];
    let mut floors = [0u64; MAX_BLOCKS];
    survey_components::own_labels(&mut labels);
    let mates = survey_groups::mates::mates(groups);
    let mut members = [0u32; MAX_VERTICES];
    let n = groups.len();
    let count = plan_active::list_members(&mates, &mut members, n as u32);
    let mut flags = plan_active::active_flags(groups, &labels);
    plan_search::start_keys(firsts, seconds, weights, &flags, &mut keys);
    let most = n - 1;
    let mut time = 0;
    let mut r = 0;
    // Stays a while: r is read after the loop, which a round without a winner ends early.
    while r < most {
        let found = crate::round::round(
            firsts,
            seconds,
            weights,
            &mut labels,
            &mut loads,
            values,
            &mut keys,
            &mut floors,
            &mut flags,
            &mates,
            &members,
            count,
            n,
            (n + r) as u32,
            time,
        );
        let Some(Winner { e, d }) = found else {
            break;
        };
        note_pick(picked, order, e, r);
        time += d;
        r += 1;
    }
    crate::bound::settle_bound(values, &flags, n + r, r, time)
}

// Growth to its end, whatever the arrays held; a refused survey has no round.
pub fn grow(
    groups: &[u8],
    firsts: &[u32],
    seconds: &[u32],
    weights: &[u32],
    values: &mut [u64; MAX_DUALS],
    picked: &mut [u8; MAX_EDGES],
    order: &mut [u32; MAX_VERTICES],
) -> Grown
    ensures { let s = lent_survey groups.now firsts.now seconds.now weights.now in
        let g = growth_from result.rounds result.bound values.new picked.new order.new in
        GrownAfter (problem_of s) (written (survey_refusal s) (length groups.now) 0) g }
{
    *values = [0u64; MAX_DUALS];
    *picked = [0u8; MAX_EDGES];
    *order = [0u32; MAX_VERTICES];
    let found = survey_refusal::edges::survey_refusal(groups, firsts, seconds, weights);
    let Verdict::Fine = found else {
        return Grown {
            rounds: 0,
            bound: 0,
        };
    };
    grow_rounds(groups, firsts, seconds, weights, values, picked, order)
}
