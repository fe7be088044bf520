// Plans with one track closed, for a list of tracks: the survey is planned once, and once more without each track that
// this plan picks. Definitions and promises in closed_rule.
#![tactic(auto)]

ghost use Rattle.std.specs.Prelude.{◌≡◌, ◌≤◌, ◌*◌, ◌++◌, length, drop};
ghost use Rattle.survey_core.specs.Survey.{survey_with, lent_with};
ghost use Rattle.survey_core.specs.Sound.{SurveySound};
ghost use Rattle.closed_rule.specs.Closed.{max_closed, row_figures, closed_refusal, rows_of, result_after};
ghost use Rattle.closed_rule.specs.Promise.{ClosedPromises};

use crate::entry::entry;
use crate::refusal::closed_refusal;
use crate::row::store_row;
use base_limits::{MAX_EDGES, Verdict};
use closed_rule::ROW_FIGURES;

mod alone;
mod answer;
mod entry;
mod omit;
mod refusal;
mod row;

// A row for each track, in list order.
fn store_rows(
    groups: &[u8],
    firsts: &[u32],
    seconds: &[u32],
    weights: &[u32],
    owners: &[u32],
    others: &[u8],
    tracks: &[u32],
    res: &mut [u64],
)
    requires survey_sound { SurveySound
        (survey_with groups.now firsts.now seconds.now weights.now owners.now others.now) }
    requires tracks_len_bound { length tracks.now ≤ max_closed }
    requires tracks_in_bounds { row_figures * length tracks.now ≤ length res.old }
    ensures { let s = lent_with groups.now firsts.now seconds.now weights.now owners.now others.now in
        res.new ≡ rows_of s tracks.now ++ drop (row_figures * length tracks.now) res.old }
{
    let mut marks = [0u8; MAX_EDGES];
    let whole = plan_core::figures::sound_figures(
        groups, firsts, seconds, weights, owners, others, &mut marks,
    );
    for i in 0..tracks.len() {
        let row = entry(
            groups,
            firsts,
            seconds,
            weights,
            owners,
            others,
            whole,
            &marks,
            base_buffer::at(tracks, i),
        );
        store_row(res, ROW_FIGURES * i, row);
    }
}

// Plans with one track closed, for each track of a list: never a candidate, all numbers kept. Four numbers for each
// track: the refusal or 0, its place, the cost, the bound. Refused are 1 to 6, 18, and 7 for a list over 256 or a
// short result; 19 and 8, judged without the track, stand in the row of their track, and the others proceed. Each row
// is what a call for its track alone writes. A row without a refusal is within the accuracy rule among the sets that
// avoid the track.
pub fn closed(
    groups: &[u8],
    firsts: &[u32],
    seconds: &[u32],
    weights: &[u32],
    owners: &[u32],
    others: &[u8],
    tracks: &[u32],
    res: &mut [u64],
) -> Verdict
    ensures result_value { let s = lent_with groups.now firsts.now seconds.now weights.now owners.now others.now in
        result ≡ closed_refusal s (length tracks.now) (length res.old) }
    ensures res_value { let s = lent_with groups.now firsts.now seconds.now weights.now owners.now others.now in
        res.new ≡ result_after s tracks.now res.old }
    ensures promises { let s = lent_with groups.now firsts.now seconds.now weights.now owners.now others.now in
        ClosedPromises s tracks.now res.old res.new result }
{
    let found = closed_refusal(
        groups,
        firsts,
        seconds,
        weights,
        owners,
        others,
        tracks.len(),
        res.len(),
    );
    let Verdict::Fine = found else {
        return found;
    };
    store_rows(
        groups, firsts, seconds, weights, owners, others, tracks, res,
    );
    Verdict::Fine
}
