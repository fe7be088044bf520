// Copies for groups with strengths, for a caller that gets one number back, a byte for each track and the total price
// in lent buffers. Definitions in specs/WinterCall.
ghost use Rattle.std.specs.Prelude.{◌≡◌};
ghost use Rattle.base_limits.specs.Verdict.{◌before◌};
ghost use Rattle.base_limits.specs.declared.Verdict.TheVariants.{Refused};
ghost use Rattle.survey_core.specs.Survey.{lent_with};
ghost use Rattle.winter_rule.specs.Winter.{given_refusal};
ghost use Rattle.api_code.specs.Code.{code_of};
ghost use Rattle.api_plan.specs.WinterCall.{winter_call, winter_copies, winter_counts};

use base_limits::Verdict;
use winter_rule::Winter;

// Entries of the counts.
pub const WINTER_FIGURES: usize = 1;

// The answer where the counts do not fit: 1 to 6, 18, 24, else 7.
fn short_winter(
    groups: &[u8],
    firsts: &[u32],
    seconds: &[u32],
    weights: &[u32],
    owners: &[u32],
    others: &[u8],
    strengths: &[u8],
) -> u64
    ensures { let s = lent_with groups.now firsts.now seconds.now weights.now owners.now others.now in
        result ≡ code_of (given_refusal s strengths.now before Refused 7 0) }
{
    let found = winter_core::given_refusal(
        groups, firsts, seconds, weights, owners, others, strengths,
    );
    match found {
        Verdict::Refused { number, place } => api_code::code(number, place),
        Verdict::Fine => 7,
    }
}

// Copies of tracks that meet the strengths of all groups, 255 of them, that of group 1 first. `copies` gets a byte for
// each track, `counts` the total price.
pub fn winter_call(
    groups: &[u8],
    firsts: &[u32],
    seconds: &[u32],
    weights: &[u32],
    owners: &[u32],
    others: &[u8],
    strengths: &[u8],
    copies: &mut [u8],
    counts: &mut [u64],
) -> u64
    ensures code { let s = lent_with groups.now firsts.now seconds.now weights.now owners.now others.now in
        result ≡ code_of (winter_call s strengths.now copies.old counts.old) }
    ensures copies { let s = lent_with groups.now firsts.now seconds.now weights.now owners.now others.now in
        copies.new ≡ winter_copies s strengths.now copies.old counts.old }
    ensures counts { let s = lent_with groups.now firsts.now seconds.now weights.now owners.now others.now in
        counts.new ≡ winter_counts s strengths.now copies.old counts.old }
{
    if counts.len() < WINTER_FIGURES {
        return short_winter(groups, firsts, seconds, weights, owners, others, strengths);
    }
    let answer = winter_core::winter(
        groups, firsts, seconds, weights, owners, others, strengths, copies,
    );
    match answer {
        Winter::Finished { total } => {
            base_buffer::put(counts, 0, total);
            0
        }
        Winter::Refused { number, place } => api_code::code(number, place),
    }
}
