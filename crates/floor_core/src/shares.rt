// The shares of the groups: lists of cuts, from the last group to the first.
ghost use Rattle.std.specs.Prelude.{◌≡◌, ℕ, ◌+◌, ◌^◌, ◌≤◌, ◌<◌, List, length, get_or, set, replicate};
ghost use Rattle.base_finite.specs.Below.{counted, sum_below};
ghost use Rattle.base_limits.specs.Limits.{group_numbers};
ghost use Rattle.floor_rule.specs.Ascent.{max_cost, arc_count, root_of, in_company, first_shares, lowered, after_list, shares_after, ascent_floor};
ghost use Rattle.floor_core.specs.Chain.{Ends, Chained};
ghost use Rattle.floor_core.specs.Tables.{Counts};

use crate::ascent::ascend;
use crate::chain::chain;
use base_buffer::{at, put};
use base_limits::{GROUP_NUMBERS, MAX_VERTICES};
use floor_rule::{MAX_ARCS, MAX_COST};

// The lowest member of group l, or the number of vertices where it has none.
pub fn root_of(groups: &[u8], l: usize) -> usize
    ensures { result ≡ root_of groups.now l }
{
    groups
        .iter()
        .position(|g| *g as usize == l)
        .unwrap_or(groups.len())
}

// One member more of group l.
fn note_member(counts: &mut [u64; GROUP_NUMBERS], l: u8)
    requires { get_or counts.old l 0 + 1 < 2 ^ 64 }
    ensures { counts.new ≡ set counts.old l (get_or counts.old l 0 + 1) }
{
    let count = at(counts, usize::from(l));
    put(counts, usize::from(l), count + 1);
}

// How many members each group has.
fn count_members(groups: &[u8], counts: &mut [u64; GROUP_NUMBERS])
    requires { counts.old ≡ replicate group_numbers 0 }
    ensures { Counts groups.now (length groups.now) counts.new }
{
    for l in groups {
        note_member(counts, *l);
    }
}

// Whatever there is for a group of two members or more.
fn first_share(counts: &[u64; GROUP_NUMBERS], l: usize) -> u64
    ensures { (groups : List ℕ) → Counts groups (length groups) counts.now → l < group_numbers
        → result ≡ counted (in_company groups l) max_cost }
{
    if l == 0 {
        return 0;
    }
    if at(counts, l) <= 1 {
        return 0;
    }
    MAX_COST
}

fn first_shares(groups: &[u8]) -> [u64; GROUP_NUMBERS]
    ensures { result ≡ first_shares groups.now }
{
    let mut counts = [0u64; GROUP_NUMBERS];
    count_members(groups, &mut counts);
    let mut share = [0u64; GROUP_NUMBERS];
    for l in 0..GROUP_NUMBERS {
        put(&mut share, l, first_share(&counts, l));
    }
    share
}

// From group k up each keeps as much of its share as it got.
fn lower(got: &[u64], k: usize, share: &mut [u64])
    requires { k < group_numbers }
    ensures { share.new ≡ lowered got.now k share.old }
{
    for l in k..GROUP_NUMBERS {
        let kept = at(share, l).min(at(got, l));
        put(share, l, kept);
    }
}

// The list of group k.
fn after_list(
    groups: &[u8],
    firsts: &[u32],
    seconds: &[u32],
    weights: &[u32],
    share: &mut [u64],
    tops: &[u32; MAX_VERTICES],
    links: &[u32; MAX_ARCS],
    k: usize,
)
    requires ends { Ends (length groups.now) firsts.now seconds.now }
    requires chained { Chained firsts.now seconds.now (arc_count firsts.now) tops.now links.now }
    requires k_in { k < group_numbers }
    ensures { share.new ≡ after_list
        groups.now firsts.now seconds.now weights.now k share.old }
{
    if at(share, k) == 0 {
        return;
    }
    let got = ascend(groups, firsts, seconds, weights, share, tops, links, k);
    lower(&got, k, share);
}

// The shares after all lists.
fn shares(
    groups: &[u8],
    firsts: &[u32],
    seconds: &[u32],
    weights: &[u32],
    tops: &[u32; MAX_VERTICES],
    links: &[u32; MAX_ARCS],
) -> [u64; GROUP_NUMBERS]
    requires ends { Ends (length groups.now) firsts.now seconds.now }
    requires chained { Chained firsts.now seconds.now (arc_count firsts.now) tops.now links.now }
    ensures { result ≡ shares_after groups.now firsts.now seconds.now weights.now group_numbers }
{
    let mut share = first_shares(groups);
    for k in (0..GROUP_NUMBERS).rev() {
        after_list(groups, firsts, seconds, weights, &mut share, tops, links, k);
    }
    share
}

fn total(share: &[u64; GROUP_NUMBERS]) -> u64
    requires { (l : ℕ) → l < group_numbers → get_or share.now l 0 ≤ max_cost }
    ensures { result ≡ sum_below group_numbers (λ l. get_or share.now l 0) }
{
    share.iter().sum()
}

// The floor of the ascent.
pub fn ascent_floor(groups: &[u8], firsts: &[u32], seconds: &[u32], weights: &[u32]) -> u64
    requires { Ends (length groups.now) firsts.now seconds.now }
    ensures { result ≡ ascent_floor groups.now firsts.now seconds.now weights.now }
{
    let mut tops = [0u32; MAX_VERTICES];
    let mut links = [0u32; MAX_ARCS];
    let arcs = firsts.len() + firsts.len();
    chain(firsts, seconds, arcs, &mut tops, &mut links);
    let share = shares(groups, firsts, seconds, weights, &tops, &links);
    total(&share)
}
