// Planning from the handset: bytes in, one number and counts as bytes out. Definitions in specs/.
ghost use Rattle.std.specs.Prelude.{◌≡◌, length};
ghost use Rattle.base_limits.specs.declared.Verdict.TheVariants.{Fine};
ghost use Rattle.api_code.specs.Code.{code_of};
ghost use Rattle.api_handset.specs.Slices.{lent_slices, lengths_refusal};
ghost use Rattle.api_handset.specs.Call.{handset_plan, handset_marks, handset_records, handset_plan_result};

use crate::lengths::{lengths_refusal, pairs_seen};
use crate::words::{PAIRS_SEEN, WORD_BYTES, spell};
use base_limits::{MAX_EDGES, Verdict};

// Plans a survey whose lengths are in order.
fn plan_bytes(
    groups: &[u8],
    firsts: &[u8],
    seconds: &[u8],
    weights: &[u8],
    owners: &[u8],
    others: &[u8],
    marks: &mut [u8],
    records: &mut [u8],
    res: &mut [u8],
) -> u64
    requires { lengths_refusal (length groups.now) (length firsts.now) (length seconds.now)
        (length weights.now) (length owners.now) (length others.now) ≡ Fine }
    ensures code { let b = lent_slices groups.now firsts.now seconds.now weights.now owners.now others.now in
        result ≡ code_of (handset_plan b marks.old records.old res.old) }
    ensures marks { let b = lent_slices groups.now firsts.now seconds.now weights.now owners.now others.now in
        marks.new ≡ handset_marks b marks.old records.old res.old }
    ensures records { let b = lent_slices groups.now firsts.now seconds.now weights.now owners.now others.now in
        records.new ≡ handset_records b marks.old records.old res.old }
    ensures res { let b = lent_slices groups.now firsts.now seconds.now weights.now owners.now others.now in
        res.new ≡ handset_plan_result b marks.old records.old res.old }
{
    let mut first_words = [0u32; MAX_EDGES];
    spell(firsts, &mut first_words);
    let mut second_words = [0u32; MAX_EDGES];
    spell(seconds, &mut second_words);
    let mut weight_words = [0u32; MAX_EDGES];
    spell(weights, &mut weight_words);
    let mut owner_words = [0u32; PAIRS_SEEN];
    spell(owners, &mut owner_words);
    let m = firsts.len() / WORD_BYTES;
    let p = pairs_seen(others.len());
    crate::result::plan_words(
        groups,
        &first_words[0..m],
        &second_words[0..m],
        &weight_words[0..m],
        &owner_words[0..p],
        &others[0..p],
        marks,
        records,
        res,
    )
}

// Plans a survey. `result` gets k, cost, bound, rounds and the number of moats.
pub fn handset_plan(
    groups: &[u8],
    firsts: &[u8],
    seconds: &[u8],
    weights: &[u8],
    owners: &[u8],
    others: &[u8],
    marks: &mut [u8],
    records: &mut [u8],
    res: &mut [u8],
) -> u64
    ensures code { let b = lent_slices groups.now firsts.now seconds.now weights.now owners.now others.now in
        result ≡ code_of (handset_plan b marks.old records.old res.old) }
    ensures marks { let b = lent_slices groups.now firsts.now seconds.now weights.now owners.now others.now in
        marks.new ≡ handset_marks b marks.old records.old res.old }
    ensures records { let b = lent_slices groups.now firsts.now seconds.now weights.now owners.now others.now in
        records.new ≡ handset_records b marks.old records.old res.old }
    ensures res { let b = lent_slices groups.now firsts.now seconds.now weights.now owners.now others.now in
        res.new ≡ handset_plan_result b marks.old records.old res.old }
{
    let odd = lengths_refusal(
        groups.len(),
        firsts.len(),
        seconds.len(),
        weights.len(),
        owners.len(),
        others.len(),
    );
    if let Verdict::Refused { number, place } = odd {
        return api_code::code(number, place);
    }
    plan_bytes(
        groups, firsts, seconds, weights, owners, others, marks, records, res,
    )
}
