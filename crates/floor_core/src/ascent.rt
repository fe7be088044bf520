// The list of cuts for trees whose lowest group is k: passes over all members, until one changes nothing.
ghost use Rattle.std.specs.Prelude.{◌≡◌, false, ◌-◌, ◌<◌, length};
ghost use Rattle.base_limits.specs.Limits.{group_numbers};
ghost use Rattle.floor_rule.specs.Ascent.{arc_count, state_with, missing, visit, visit_member, visit_members, visit_group, visit_groups, passes, ascended};
ghost use Rattle.floor_core.specs.Chain.{Ends, Chained};
ghost use Rattle.floor_core.specs.Done.{Done};

use crate::arcs::prices;
use crate::cut::raise_cut;
use crate::shares::root_of;
use base_buffer::{at, put};
use base_limits::{GROUP_NUMBERS, MAX_VERTICES};
use floor_rule::MAX_ARCS;

// What group l may still get of its share.
fn missing(share: &[u64], got: &[u64], l: usize) -> u64
    ensures { result ≡ missing share.now got.now l }
{
    at(share, l).saturating_sub(at(got, l))
}

// A visit to member v of group l, unless the group has its share or v is done; n is the number of vertices. True if the
// cut is raised, or one was before.
fn visit(
    firsts: &[u32],
    seconds: &[u32],
    share: &[u64],
    tops: &[u32; MAX_VERTICES],
    links: &[u32; MAX_ARCS],
    rests: &mut [u32; MAX_ARCS],
    got: &mut [u64; GROUP_NUMBERS],
    done: &mut [u8; MAX_VERTICES],
    rim: &mut [u32; MAX_ARCS],
    n: usize,
    root: usize,
    l: usize,
    v: usize,
    more: bool,
) -> bool
    requires ends { Ends n firsts.now seconds.now }
    requires chained { Chained firsts.now seconds.now (arc_count firsts.now) tops.now links.now }
    requires v_lt_n { v < n }
    requires done { Done firsts.now seconds.now n root rests.old done.old }
    ensures got_value { state_with rests.new got.new ≡
        visit firsts.now seconds.now share.now n root l v (state_with rests.old got.old) }
    ensures more_value { result ≡ false →
        (more ≡ false) × (state_with rests.new got.new ≡ state_with rests.old got.old) }
    ensures done_2 { Done firsts.now seconds.now n root rests.new done.new }
{
    let cap = missing(share, got, l);
    if cap == 0 {
        return more;
    }
    if at(done, v) != 0 {
        return more;
    }
    match raise_cut(firsts, seconds, tops, links, rests, rim, n, root, v, cap) {
        None => {
            put(done, v, 1);
            more
        }
        Some(by) => {
            let part = at(got, l);
            put(got, l, part + by);
            true
        }
    }
}

// A visit to v, if it is a member of group l.
fn visit_member(
    groups: &[u8],
    firsts: &[u32],
    seconds: &[u32],
    share: &[u64],
    tops: &[u32; MAX_VERTICES],
    links: &[u32; MAX_ARCS],
    rests: &mut [u32; MAX_ARCS],
    got: &mut [u64; GROUP_NUMBERS],
    done: &mut [u8; MAX_VERTICES],
    rim: &mut [u32; MAX_ARCS],
    root: usize,
    l: usize,
    v: usize,
    more: bool,
) -> bool
    requires ends { Ends (length groups.now) firsts.now seconds.now }
    requires chained { Chained firsts.now seconds.now (arc_count firsts.now) tops.now links.now }
    requires v_in_bounds { v < length groups.now }
    requires done { Done firsts.now seconds.now (length groups.now) root rests.old done.old }
    ensures got_value { state_with rests.new got.new ≡ visit_member
        groups.now firsts.now seconds.now share.now root l v (state_with rests.old got.old) }
    ensures more_value { result ≡ false →
        (more ≡ false) × (state_with rests.new got.new ≡ state_with rests.old got.old) }
    ensures done_2 { Done firsts.now seconds.now (length groups.now) root rests.new done.new }
{
    if usize::from(at(groups, v)) != l {
        return more;
    }
    let n = groups.len();
    visit(
        firsts, seconds, share, tops, links, rests, got, done, rim, n, root, l, v, more,
    )
}

// All members of group l.
fn visit_members(
    groups: &[u8],
    firsts: &[u32],
    seconds: &[u32],
    share: &[u64],
    tops: &[u32; MAX_VERTICES],
    links: &[u32; MAX_ARCS],
    rests: &mut [u32; MAX_ARCS],
    got: &mut [u64; GROUP_NUMBERS],
    done: &mut [u8; MAX_VERTICES],
    rim: &mut [u32; MAX_ARCS],
    root: usize,
    l: usize,
    before: bool,
) -> bool
    requires ends { Ends (length groups.now) firsts.now seconds.now }
    requires chained { Chained firsts.now seconds.now (arc_count firsts.now) tops.now links.now }
    requires done { Done firsts.now seconds.now (length groups.now) root rests.old done.old }
    ensures got_value { state_with rests.new got.new ≡ visit_members groups.now firsts.now seconds.now share.now
        root l (length groups.now) (state_with rests.old got.old) }
    ensures before_value { result ≡ false →
        (before ≡ false) × (state_with rests.new got.new ≡ state_with rests.old got.old) }
    ensures done_2 { Done firsts.now seconds.now (length groups.now) root rests.new done.new }
{
    let mut more = before;
    for v in 0..groups.len() {
        more = visit_member(
            groups, firsts, seconds, share, tops, links, rests, got, done, rim, root, l, v, more,
        );
    }
    more
}

// Group l, if it is not below k and has not got its share.
fn visit_group(
    groups: &[u8],
    firsts: &[u32],
    seconds: &[u32],
    share: &[u64],
    tops: &[u32; MAX_VERTICES],
    links: &[u32; MAX_ARCS],
    rests: &mut [u32; MAX_ARCS],
    got: &mut [u64; GROUP_NUMBERS],
    done: &mut [u8; MAX_VERTICES],
    rim: &mut [u32; MAX_ARCS],
    root: usize,
    k: usize,
    l: usize,
    more: bool,
) -> bool
    requires ends { Ends (length groups.now) firsts.now seconds.now }
    requires chained { Chained firsts.now seconds.now (arc_count firsts.now) tops.now links.now }
    requires done { Done firsts.now seconds.now (length groups.now) root rests.old done.old }
    ensures got_value { state_with rests.new got.new ≡ visit_group
        groups.now firsts.now seconds.now share.now root k l (state_with rests.old got.old) }
    ensures more_value { result ≡ false →
        (more ≡ false) × (state_with rests.new got.new ≡ state_with rests.old got.old) }
    ensures done_2 { Done firsts.now seconds.now (length groups.now) root rests.new done.new }
{
    if l < k {
        return more;
    }
    if missing(share, got, l) == 0 {
        return more;
    }
    visit_members(
        groups, firsts, seconds, share, tops, links, rests, got, done, rim, root, l, more,
    )
}

// A pass over all groups from k up. True if it changes something.
fn pass(
    groups: &[u8],
    firsts: &[u32],
    seconds: &[u32],
    share: &[u64],
    tops: &[u32; MAX_VERTICES],
    links: &[u32; MAX_ARCS],
    rests: &mut [u32; MAX_ARCS],
    got: &mut [u64; GROUP_NUMBERS],
    done: &mut [u8; MAX_VERTICES],
    rim: &mut [u32; MAX_ARCS],
    root: usize,
    k: usize,
) -> bool
    requires ends { Ends (length groups.now) firsts.now seconds.now }
    requires chained { Chained firsts.now seconds.now (arc_count firsts.now) tops.now links.now }
    requires done { Done firsts.now seconds.now (length groups.now) root rests.old done.old }
    ensures got_value { state_with rests.new got.new ≡ visit_groups
        groups.now firsts.now seconds.now share.now root k group_numbers (state_with rests.old got.old) }
    ensures got_value_2 { result ≡ false → state_with rests.new got.new ≡ state_with rests.old got.old }
    ensures done_2 { Done firsts.now seconds.now (length groups.now) root rests.new done.new }
{
    let mut more = false;
    for l in 0..GROUP_NUMBERS {
        more = visit_group(
            groups, firsts, seconds, share, tops, links, rests, got, done, rim, root, k, l, more,
        );
    }
    more
}

// Passes, until one changes nothing, and at most so many.
fn passes(
    groups: &[u8],
    firsts: &[u32],
    seconds: &[u32],
    share: &[u64],
    tops: &[u32; MAX_VERTICES],
    links: &[u32; MAX_ARCS],
    rests: &mut [u32; MAX_ARCS],
    got: &mut [u64; GROUP_NUMBERS],
    done: &mut [u8; MAX_VERTICES],
    rim: &mut [u32; MAX_ARCS],
    root: usize,
    k: usize,
    limit: usize,
)
    requires ends { Ends (length groups.now) firsts.now seconds.now }
    requires chained { Chained firsts.now seconds.now (arc_count firsts.now) tops.now links.now }
    requires done { Done firsts.now seconds.now (length groups.now) root rests.old done.old }
    ensures { state_with rests.new got.new ≡ passes
        groups.now firsts.now seconds.now share.now root k limit (state_with rests.old got.old) }
{
    for _ in 0..limit {
        if !pass(
            groups, firsts, seconds, share, tops, links, rests, got, done, rim, root, k,
        ) {
            return;
        }
    }
}

// What each group gets in the list of group k.
pub fn ascend(
    groups: &[u8],
    firsts: &[u32],
    seconds: &[u32],
    weights: &[u32],
    share: &[u64],
    tops: &[u32; MAX_VERTICES],
    links: &[u32; MAX_ARCS],
    k: usize,
) -> [u64; GROUP_NUMBERS]
    requires ends { Ends (length groups.now) firsts.now seconds.now }
    requires chained { Chained firsts.now seconds.now (arc_count firsts.now) tops.now links.now }
    ensures { result ≡ (ascended groups.now firsts.now seconds.now weights.now share.now k).got }
{
    let arcs = firsts.len() + firsts.len();
    let mut rests = prices(firsts, weights, arcs);
    let mut got = [0u64; GROUP_NUMBERS];
    let mut done = [0u8; MAX_VERTICES];
    let mut rim = [0u32; MAX_ARCS];
    let root = root_of(groups, k);
    passes(
        groups,
        firsts,
        seconds,
        share,
        tops,
        links,
        &mut rests,
        &mut got,
        &mut done,
        &mut rim,
        root,
        k,
        arcs + groups.len(),
    );
    got
}
