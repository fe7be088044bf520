// Copies of tracks, bit by bit: what is kept for a bit counts 1, 2, 4 or 8 times.
ghost use Rattle.std.specs.Prelude.{◌≡◌, ◌+◌, ◌<◌, get_or, eqb};
ghost use Rattle.base_buffer.specs.Store.{remade};
ghost use Rattle.base_finite.specs.Below.{counted};
ghost use Rattle.theory_steiner.specs.Strength.{strength_bits};
ghost use Rattle.survey_core.specs.Survey.{survey_with, lent_with};
ghost use Rattle.survey_core.specs.Sound.{SurveySound};
ghost use Rattle.plan_rule.specs.Figures.{figuring, marks_figured, figured_outcome};
ghost use Rattle.winter_core.specs.Bit.{bit_survey, figured_cost, Room};

use crate::bit::{bit_groups, bit_pairs, power};
use base_buffer::{at, put};
use base_limits::{MAX_EDGES, MAX_PAIRS};
use plan_rule::Figured;

// The first m bytes become 0.
pub fn clear(copies: &mut [u8], m: usize)
    ensures { copies.new ≡ remade (λ e x. 0) m copies.old }
{
    let n = m.min(copies.len());
    copies[..n].fill(0);
}

// The copies of a track, with those of a bit if its mark is that of a kept one.
fn more(copies: u8, mark: u8, power: u8) -> u8
    requires { copies + power < 256 }
    ensures { result ≡ copies + counted (eqb mark 2) power }
{
    if mark == 2 {
        return copies + power;
    }
    copies
}

// Each of the first m tracks that is marked as kept is copied so often more.
pub fn add_kept(marks: &[u8], copies: &mut [u8], m: usize, power: u8)
    requires { Room copies.old m power }
    ensures { copies.new ≡ remade (λ e x. x + counted (eqb (get_or marks.now e 0) 2) power) m copies.old }
{
    for e in 0..m {
        put(copies, e, more(at(copies, e), at(marks, e), power));
    }
}

// The cost that figures say.
pub fn cost_of(figures: Figured) -> u64
    ensures { result ≡ figured_cost (figured_outcome figures) }
{
    match figures {
        Figured::Finished {
            terminals: _,
            cost,
            bound: _,
            rounds: _,
        } => cost,
        Figured::Refused {
            number: _,
            place: _,
        } => 0,
    }
}

// The plan for the groups with a bit: its figures and marks.
pub fn plan_bit(
    groups: &[u8],
    firsts: &[u32],
    seconds: &[u32],
    weights: &[u32],
    owners: &[u32],
    others: &[u8],
    strengths: &[u8],
    bit: usize,
    marks: &mut [u8; MAX_EDGES],
) -> Figured
    requires survey_sound { SurveySound
        (survey_with groups.now firsts.now seconds.now weights.now owners.now others.now) }
    requires bit_lt_strength_bits { bit < strength_bits }
    ensures result_value { let s = lent_with groups.now firsts.now seconds.now weights.now owners.now others.now in
        figured_outcome result ≡ figuring (bit_survey s strengths.now bit) }
    ensures marks_value { let s = lent_with groups.now firsts.now seconds.now weights.now owners.now others.now in
        marks.new ≡ marks_figured (bit_survey s strengths.now bit) marks.old }
{
    let own = bit_groups(groups, strengths, bit);
    let mut carriers = [0u32; MAX_PAIRS];
    let mut carried = [0u8; MAX_PAIRS];
    let count = bit_pairs(owners, others, strengths, bit, &mut carriers, &mut carried);
    let n = groups.len();
    plan_core::figures::figures(
        &own[0..n],
        firsts,
        seconds,
        weights,
        &carriers[0..count],
        &carried[0..count],
        marks,
    )
}
