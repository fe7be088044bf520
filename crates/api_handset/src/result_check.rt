// Checking of a plan against a survey in numbers, with the counts as bytes in a lent slice. Definitions in specs/.
ghost use Rattle.std.specs.Prelude.{◌≡◌};
ghost use Rattle.survey_core.specs.Survey.{lent_with};
ghost use Rattle.check_rule.specs.Check.{checked_of};
ghost use Rattle.api_code.specs.Code.{code_of};
ghost use Rattle.api_check.specs.Call.{check_figures_of};
ghost use Rattle.api_handset.specs.Call.{result_after, check_with};

use api_check::CHECK_FIGURES;
use base_limits::VALUE_BYTES;

// Bytes of the counts.
pub const CHECK_BYTES: usize = CHECK_FIGURES * VALUE_BYTES;

// Checks a plan against a survey in numbers: no entry for counts is lent on where the result is too short.
pub fn check_words(
    groups: &[u8],
    firsts: &[u32],
    seconds: &[u32],
    weights: &[u32],
    owners: &[u32],
    others: &[u8],
    marks: &[u8],
    records: &[u8],
    res: &mut [u8],
) -> u64
    ensures result_value { let s = lent_with groups.now firsts.now seconds.now weights.now owners.now others.now in
        result ≡ code_of (check_with s marks.now records.now res.old) }
    ensures res_value { let s = lent_with groups.now firsts.now seconds.now weights.now owners.now others.now in
        let figures = check_figures_of (checked_of s marks.now records.now) in
        res.new ≡ result_after (check_with s marks.now records.now res.old) figures res.old }
{
    let mut counts = [0u64; CHECK_FIGURES];
    let room = api_code::lent_on(res.len(), CHECK_BYTES, CHECK_FIGURES);
    let found = api_check::check_call(
        groups,
        firsts,
        seconds,
        weights,
        owners,
        others,
        marks,
        records,
        &mut counts[0..room],
    );
    if 0 < found {
        return found;
    }
    crate::counts::write_counts(res, &counts);
    found
}
