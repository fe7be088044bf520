// Growing and dropping over poured lists. The growth comes first: its picks join every group exactly if all tracks
// together do, so that 8 need not be looked for among all tracks.
ghost use Rattle.std.specs.Prelude.{◌≡◌, ◌≤◌, length, replicate};
ghost use Rattle.base_limits.specs.Limits.{max_vertices, max_duals};
ghost use Rattle.survey_core.specs.Survey.{survey_from, lent_survey};
ghost use Rattle.survey_core.specs.Sound.{SurveySound};
ghost use Rattle.plan_core.specs.Planned.{MarkedInto};

use base_limits::{MAX_DUALS, MAX_EDGES, MAX_VERTICES, Verdict};

// What growing and dropping answer: how many rounds there were, the sum of all duals, and whether every group is joined.
#[derive(Drop)]
pub struct Marked {
    pub rounds: usize,
    pub bound: u64,
    pub joins: bool,
}

// Rounds, their arrays, and the plan's marks; where the groups cannot be joined no mark is written.
pub fn grow_marks(
    groups: &[u8],
    firsts: &[u32],
    seconds: &[u32],
    weights: &[u32],
    values: &mut [u64; MAX_DUALS],
    order: &mut [u32; MAX_VERTICES],
    marks: &mut [u8],
) -> Marked
    requires survey_sound { SurveySound (survey_from groups.now firsts.now seconds.now weights.now) }
    requires values_value { (values.old ≡ replicate max_duals 0) × (order.old ≡ replicate max_vertices 0) }
    requires firsts_in_bounds { length firsts.now ≤ length marks.old }
    ensures { let s = lent_survey groups.now firsts.now seconds.now weights.now in
        MarkedInto s marks.old result.rounds result.bound result.joins values.new order.new marks.new }
{
    let mut picked = [0u8; MAX_EDGES];
    let grown = plan_rounds::grow_rounds(
        groups,
        firsts,
        seconds,
        weights,
        values,
        &mut picked,
        order,
    );
    let rounds = grown.rounds;
    let bound = grown.bound;
    let found = plan_drop::prune_picks(groups, firsts, seconds, &picked, marks);
    match found {
        Verdict::Fine => Marked {
            rounds,
            bound,
            joins: true,
        },
        Verdict::Refused {
            number: _,
            place: _,
        } => Marked {
            rounds,
            bound,
            joins: false,
        },
    }
}
