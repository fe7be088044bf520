// The lowest list whose members a set of tracks leaves apart: 8 and 14 over lists that may overlap.
ghost use Rattle.std.specs.Prelude.{◌≡◌, ℕ, ◌+◌, get_or, length};
ghost use Rattle.base_finite.specs.Below.{tabulate};
ghost use Rattle.base_limits.specs.Limits.{group_numbers};
ghost use Rattle.base_limits.specs.Verdict.{◌before◌};
ghost use Rattle.survey_core.specs.Lists.{lent_lists};
ghost use Rattle.survey_core.specs.Survey.{groups_alone, survey_with, lent_with};
ghost use Rattle.survey_core.specs.Sound.{SurveySound};
ghost use Rattle.survey_core.specs.Refusal.{survey_refusal, group_refusal};
ghost use Rattle.survey_groups.specs.Spread.{noted_in, spread};
ghost use Rattle.survey_components.specs.Labels.{chosen};
ghost use Rattle.survey_lists.specs.Split.{split_list, pair_group, entry_vertex, entries};

use base_buffer::at;
use base_limits::{GROUP_NUMBERS, Verdict};
use survey_components::Chosen;

// The group of pair i, or 0 where its vertex is none of the survey.
fn pair_group(groups: &[u8], owners: &[u32], others: &[u8], i: usize) -> u8
    ensures { result ≡ pair_group (lent_lists groups.now owners.now others.now) i }
{
    if (at(owners, i) as usize) < groups.len() {
        return at(others, i);
    }
    0
}

// One more pair in the table of all lists.
fn note_pair(
    groups: &[u8],
    owners: &[u32],
    others: &[u8],
    labels: &[u32],
    table: &mut [u64],
    i: usize,
)
    ensures { let label = get_or labels.now (get_or owners.now i 0) 0 in
        table.new ≡ noted_in table.old (pair_group (lent_lists groups.now owners.now others.now) i) label }
{
    let group = pair_group(groups, owners, others, i);
    let label = at(labels, at(owners, i) as usize);
    survey_groups::note_label(table, group, label);
}

// The table of all lists under given labels.
fn list_spreads(
    groups: &[u8],
    owners: &[u32],
    others: &[u8],
    labels: &[u32],
) -> [u64; GROUP_NUMBERS]
    ensures { let l = lent_lists groups.now owners.now others.now in
        let label : ℕ → ℕ = λ j. get_or labels.now (entry_vertex l j) 0 in
        let count = length groups.now + length owners.now in
        result ≡ tabulate group_numbers (λ g. spread (groups_alone (entries l)) label g count) }
{
    let mut table = survey_groups::spreads(groups, labels);
    for i in 0..owners.len() {
        note_pair(groups, owners, others, labels, &mut table, i);
    }
    table
}

// The lowest list whose members have different labels.
pub fn split_list(
    groups: &[u8],
    owners: &[u32],
    others: &[u8],
    labels: &[u32],
    number: u64,
) -> Verdict
    ensures { let label : ℕ → ℕ = λ v. get_or labels.now v 0 in
        result ≡ split_list (lent_lists groups.now owners.now others.now) label number }
{
    let table = list_spreads(groups, owners, others, labels);
    survey_groups::first_split(&table, number)
}

// The lowest list that the set of tracks does not join, of a survey that 1 to 6 and 18 do not refuse, under the number
// given: 8 of all tracks, 14 of the kept ones.
pub fn unjoined_refusal(
    groups: &[u8],
    firsts: &[u32],
    seconds: &[u32],
    weights: &[u32],
    owners: &[u32],
    others: &[u8],
    set: Chosen,
    marks: &[u8],
    number: u64,
) -> Verdict
    requires { SurveySound
        (survey_with groups.now firsts.now seconds.now weights.now owners.now others.now) }
    ensures { let s = lent_with groups.now firsts.now seconds.now weights.now owners.now others.now in
        result ≡ group_refusal s number (chosen set marks.now) }
{
    let labels = survey_components::joined_labels(groups, firsts, seconds, set, marks);
    split_list(groups, owners, others, &labels, number)
}

// 1 to 6 and 18, and then that list.
pub fn group_refusal(
    groups: &[u8],
    firsts: &[u32],
    seconds: &[u32],
    weights: &[u32],
    owners: &[u32],
    others: &[u8],
    set: Chosen,
    marks: &[u8],
    number: u64,
) -> Verdict
    ensures { let s = lent_with groups.now firsts.now seconds.now weights.now owners.now others.now in
        result ≡ (survey_refusal s before group_refusal s number (chosen set marks.now)) }
{
    let found = survey_refusal::survey_refusal(groups, firsts, seconds, weights, owners, others);
    let Verdict::Fine = found else {
        return found;
    };
    unjoined_refusal(
        groups, firsts, seconds, weights, owners, others, set, marks, number,
    )
}
