// The library for programs in other languages: every operation as a function that C can call. A slice crosses as a
// pointer and a length in items; the answer is 0, or a refusal's number plus 256 times its place. Declared in
// include/foamsickle.h.
#![tactic(auto)]

ghost use Rattle.std.specs.Prelude.{◌≡◌, length, ◌≤◌};
ghost use Rattle.survey_core.specs.Survey.{survey_with, lent_with};
ghost use Rattle.format_write.specs.Text.{plan_text};
ghost use Rattle.format_survey.specs.Line.{lent_lengths, firsts_of, seconds_of, weights_of};
ghost use Rattle.format_survey_print.specs.Print.{survey_lent};
ghost use Rattle.format_survey.specs.Reading.{filled};
ghost use Rattle.format_survey.specs.Answer.{counts_of};
ghost use Rattle.api_code.specs.Code.{code_of, capped, verdict_of, counts_for};
ghost use Rattle.api_read.specs.Call.{read_figures_of, read_call};
ghost use Rattle.format_stp.specs.Promises.{stp_buffers, StpPromises};
ghost use Rattle.format_stp.specs.Answer.{stp_counts_of};
ghost use Rattle.api_read.specs.StpCall.{stp_figures, stp_figures_of, stp_call};
ghost use Rattle.api_plan.specs.Call.{plan_call, plan_marks, plan_records, plan_counts};
ghost use Rattle.api_plan.specs.GrowCall.{grow_marks, grow_counts, drop_call, drop_marks, dropped_counts};
ghost use Rattle.api_plan.specs.WinterCall.{winter_call, winter_copies, winter_counts};
ghost use Rattle.api_plan.specs.FloorCall.{floor_call, floored_counts};
ghost use Rattle.api_why.specs.Call.{why_call, why_route, why_figured};
ghost use Rattle.closed_rule.specs.Closed.{closed_refusal, result_after};
ghost use Rattle.merge_rule.specs.Ties.{ties_from};
ghost use Rattle.merge_rule.specs.Refusal.{room_of};
ghost use Rattle.api_merge.specs.Call.{call_refusal, merge_out, merge_counts};
ghost use Rattle.api_check.specs.Call.{check_figures_of, check_call, check_counts};
ghost use Rattle.api_print.specs.Call.{dual_call, dual_out, dual_counts};
ghost use Rattle.api_print.specs.Call.{text_call, text_out, text_counts, survey_call, survey_out, survey_counts};
ghost use Rattle.api_check.specs.VerifyCall.{verify_call};
ghost use Rattle.format_table.specs.Table.{table_refusal, packed_out, unpacked_out};
ghost use Rattle.api_season.specs.Call.{season_call, season_bytes, print_call, print_out, print_counts};
ghost use Rattle.api_handset.specs.Slices.{lent_slices};
ghost use Rattle.api_handset.specs.Call.{handset_plan, handset_marks, handset_records, handset_plan_result};
ghost use Rattle.api_handset.specs.Call.{handset_check, handset_check_result};

// Reads a survey's text. `counts` gets n, m and the number of pairs.
#[unsafe(no_mangle)]
pub extern "C" fn foamsickle_read(
    text: &[u8],
    groups: &mut [u8],
    firsts: &mut [u32],
    seconds: &mut [u32],
    weights: &mut [u32],
    owners: &mut [u32],
    others: &mut [u8],
    counts: &mut [u64],
) -> u64
    ensures code { let lent = lent_lengths groups.old firsts.old seconds.old weights.old owners.old others.old in
        let read = read_call text.now lent (length counts.old) in
        result ≡ code_of (verdict_of read) }
    ensures groups { let lent = lent_lengths groups.old firsts.old seconds.old weights.old owners.old others.old in
        let read = read_call text.now lent (length counts.old) in
        groups.new ≡ filled read (λ s. s.groups) groups.old }
    ensures firsts { let lent = lent_lengths groups.old firsts.old seconds.old weights.old owners.old others.old in
        let read = read_call text.now lent (length counts.old) in
        firsts.new ≡ filled read (λ s. s.firsts) firsts.old }
    ensures seconds { let lent = lent_lengths groups.old firsts.old seconds.old weights.old owners.old others.old in
        let read = read_call text.now lent (length counts.old) in
        seconds.new ≡ filled read (λ s. s.seconds) seconds.old }
    ensures weights { let lent = lent_lengths groups.old firsts.old seconds.old weights.old owners.old others.old in
        let read = read_call text.now lent (length counts.old) in
        weights.new ≡ filled read (λ s. s.weights) weights.old }
    ensures owners { let lent = lent_lengths groups.old firsts.old seconds.old weights.old owners.old others.old in
        let read = read_call text.now lent (length counts.old) in
        owners.new ≡ filled read (λ s. s.owners) owners.old }
    ensures others { let lent = lent_lengths groups.old firsts.old seconds.old weights.old owners.old others.old in
        let read = read_call text.now lent (length counts.old) in
        others.new ≡ filled read (λ s. s.others) others.old }
    ensures counts { let lent = lent_lengths groups.old firsts.old seconds.old weights.old owners.old others.old in
        let read = read_call text.now lent (length counts.old) in
        counts.new ≡ counts_for (counts_of read) read_figures_of counts.old }
{
    api_read::read_call(
        text, groups, firsts, seconds, weights, owners, others, counts,
    )
}

// Reads an STP text. `counts` gets n and m.
#[unsafe(no_mangle)]
pub extern "C" fn foamsickle_read_stp(
    text: &[u8],
    groups: &mut [u8],
    firsts: &mut [u32],
    seconds: &mut [u32],
    weights: &mut [u32],
    counts: &mut [u64],
) -> u64
    ensures code { let read = stp_call text.now groups.old firsts.old seconds.old weights.old (length counts.old) in
        result ≡ capped (code_of (verdict_of read)) }
    ensures groups { let read = stp_call text.now groups.old firsts.old seconds.old weights.old (length counts.old) in
        groups.new ≡ filled read (λ x. x.groups) groups.old }
    ensures firsts { let read = stp_call text.now groups.old firsts.old seconds.old weights.old (length counts.old) in
        firsts.new ≡ filled read (λ x. firsts_of x.lines) firsts.old }
    ensures seconds { let read = stp_call text.now groups.old firsts.old seconds.old weights.old (length counts.old) in
        seconds.new ≡ filled read (λ x. seconds_of x.lines) seconds.old }
    ensures weights { let read = stp_call text.now groups.old firsts.old seconds.old weights.old (length counts.old) in
        weights.new ≡ filled read (λ x. weights_of x.lines) weights.old }
    ensures counts { let read = stp_call text.now groups.old firsts.old seconds.old weights.old (length counts.old) in
        counts.new ≡ counts_for (stp_counts_of read) stp_figures_of counts.old }
    ensures promises { let read = stp_call text.now groups.old firsts.old seconds.old weights.old (length counts.old) in
        let before = stp_buffers groups.old firsts.old seconds.old weights.old in
        let after = stp_buffers groups.new firsts.new seconds.new weights.new in
        (stp_figures ≤ length counts.old → StpPromises text.now before (stp_counts_of read) after) }
{
    api_read::stp_call(text, groups, firsts, seconds, weights, counts)
}

// Plans a survey with pairs (owners, others). `counts` gets k, cost, bound, rounds and the number of moats.
#[unsafe(no_mangle)]
pub extern "C" fn foamsickle_plan(
    groups: &[u8],
    firsts: &[u32],
    seconds: &[u32],
    weights: &[u32],
    owners: &[u32],
    others: &[u8],
    marks: &mut [u8],
    records: &mut [u8],
    counts: &mut [u64],
) -> u64
    ensures code { let s = lent_with groups.now firsts.now seconds.now weights.now owners.now others.now in
        result ≡ code_of (plan_call s marks.old records.old counts.old) }
    ensures marks { let s = lent_with groups.now firsts.now seconds.now weights.now owners.now others.now in
        marks.new ≡ plan_marks s marks.old records.old counts.old }
    ensures records { let s = lent_with groups.now firsts.now seconds.now weights.now owners.now others.now in
        records.new ≡ plan_records s marks.old records.old counts.old }
    ensures counts { let s = lent_with groups.now firsts.now seconds.now weights.now owners.now others.now in
        counts.new ≡ plan_counts s marks.old records.old counts.old }
{
    api_plan::plan_call(
        groups, firsts, seconds, weights, owners, others, marks, records, counts,
    )
}

// Grows without dropping: marks 0 and 1. `counts` gets planning's counts with cost 0.
#[unsafe(no_mangle)]
pub extern "C" fn foamsickle_grow(
    groups: &[u8],
    firsts: &[u32],
    seconds: &[u32],
    weights: &[u32],
    owners: &[u32],
    others: &[u8],
    marks: &mut [u8],
    records: &mut [u8],
    counts: &mut [u64],
) -> u64
    ensures code { let s = lent_with groups.now firsts.now seconds.now weights.now owners.now others.now in
        result ≡ code_of (plan_call s marks.old records.old counts.old) }
    ensures marks { let s = lent_with groups.now firsts.now seconds.now weights.now owners.now others.now in
        marks.new ≡ grow_marks s marks.old records.old counts.old }
    ensures records { let s = lent_with groups.now firsts.now seconds.now weights.now owners.now others.now in
        records.new ≡ plan_records s marks.old records.old counts.old }
    ensures counts { let s = lent_with groups.now firsts.now seconds.now weights.now owners.now others.now in
        counts.new ≡ grow_counts s marks.old records.old counts.old }
{
    api_plan::grow_call(
        groups, firsts, seconds, weights, owners, others, marks, records, counts,
    )
}

// Drops what no list needs of the tracks marked 1: the others become 2. `counts` gets k and the kept cost.
#[unsafe(no_mangle)]
pub extern "C" fn foamsickle_drop(
    groups: &[u8],
    firsts: &[u32],
    seconds: &[u32],
    weights: &[u32],
    owners: &[u32],
    others: &[u8],
    marks: &mut [u8],
    counts: &mut [u64],
) -> u64
    ensures code { let s = lent_with groups.now firsts.now seconds.now weights.now owners.now others.now in
        result ≡ code_of (drop_call s marks.old counts.old) }
    ensures marks { let s = lent_with groups.now firsts.now seconds.now weights.now owners.now others.now in
        marks.new ≡ drop_marks s marks.old counts.old }
    ensures counts { let s = lent_with groups.now firsts.now seconds.now weights.now owners.now others.now in
        counts.new ≡ dropped_counts s marks.old counts.old }
{
    api_plan::drop_call(
        groups, firsts, seconds, weights, owners, others, marks, counts,
    )
}

// Says why a track has its mark. `counts` gets the mark, the group, its two members, the entries of the route and the
// round; `route` the tracks between the two members.
#[unsafe(no_mangle)]
pub extern "C" fn foamsickle_why(
    groups: &[u8],
    firsts: &[u32],
    seconds: &[u32],
    weights: &[u32],
    owners: &[u32],
    others: &[u8],
    track: u32,
    route: &mut [u32],
    counts: &mut [u64],
) -> u64
    ensures code { let s = lent_with groups.now firsts.now seconds.now weights.now owners.now others.now in
        result ≡ code_of (why_call s track route.old counts.old) }
    ensures route { let s = lent_with groups.now firsts.now seconds.now weights.now owners.now others.now in
        route.new ≡ why_route s track route.old counts.old }
    ensures counts { let s = lent_with groups.now firsts.now seconds.now weights.now owners.now others.now in
        counts.new ≡ why_figured s track route.old counts.old }
{
    api_why::why_call(
        groups, firsts, seconds, weights, owners, others, track, route, counts,
    )
}

// Plans with one track closed, for each track of a list. `result` gets four numbers for each: the refusal or 0, its
// place, the cost, the bound.
#[unsafe(no_mangle)]
pub extern "C" fn foamsickle_closed(
    groups: &[u8],
    firsts: &[u32],
    seconds: &[u32],
    weights: &[u32],
    owners: &[u32],
    others: &[u8],
    tracks: &[u32],
    res: &mut [u64],
) -> u64
    ensures code { let s = lent_with groups.now firsts.now seconds.now weights.now owners.now others.now in
        result ≡ code_of (closed_refusal s (length tracks.now) (length res.old)) }
    ensures res { let s = lent_with groups.now firsts.now seconds.now weights.now owners.now others.now in
        res.new ≡ result_after s tracks.now res.old }
{
    api_plan::closed_call(
        groups, firsts, seconds, weights, owners, others, tracks, res,
    )
}

// Copies of tracks that meet the strengths of all groups, 255 of them, that of group 1 first. `copies` gets a byte for
// each track, `counts` the total price.
#[unsafe(no_mangle)]
pub extern "C" fn foamsickle_winter(
    groups: &[u8],
    firsts: &[u32],
    seconds: &[u32],
    weights: &[u32],
    owners: &[u32],
    others: &[u8],
    strengths: &[u8],
    copies: &mut [u8],
    counts: &mut [u64],
) -> u64
    ensures code { let s = lent_with groups.now firsts.now seconds.now weights.now owners.now others.now in
        result ≡ code_of (winter_call s strengths.now copies.old counts.old) }
    ensures copies { let s = lent_with groups.now firsts.now seconds.now weights.now owners.now others.now in
        copies.new ≡ winter_copies s strengths.now copies.old counts.old }
    ensures counts { let s = lent_with groups.now firsts.now seconds.now weights.now owners.now others.now in
        counts.new ≡ winter_counts s strengths.now copies.old counts.old }
{
    api_plan::winter_call(
        groups, firsts, seconds, weights, owners, others, strengths, copies, counts,
    )
}

// Makes one survey of two neighbouring ones, given ties: a junction of the first and the one of the second at the same
// place. The six buffers of the result get its own groups, first ends, second ends, prices and pairs; `counts` gets n, m
// and the number of pairs.
#[unsafe(no_mangle)]
pub extern "C" fn foamsickle_merge(
    groups: &[u8],
    firsts: &[u32],
    seconds: &[u32],
    weights: &[u32],
    owners: &[u32],
    others: &[u8],
    second_groups: &[u8],
    second_firsts: &[u32],
    second_seconds: &[u32],
    second_weights: &[u32],
    second_owners: &[u32],
    second_others: &[u8],
    tie_firsts: &[u32],
    tie_seconds: &[u32],
    out_groups: &mut [u8],
    out_firsts: &mut [u32],
    out_seconds: &mut [u32],
    out_weights: &mut [u32],
    out_owners: &mut [u32],
    out_others: &mut [u8],
    counts: &mut [u64],
) -> u64
    ensures code { let a = lent_with groups.now firsts.now seconds.now weights.now owners.now others.now in
        let b = lent_with second_groups.now second_firsts.now second_seconds.now second_weights.now second_owners.now second_others.now in
        let ties = ties_from tie_firsts.now tie_seconds.now in
        let out = lent_with out_groups.old out_firsts.old out_seconds.old out_weights.old out_owners.old out_others.old in
        result ≡ code_of (call_refusal a b ties (room_of out) (length counts.old)) }
    ensures buffers { let a = lent_with groups.now firsts.now seconds.now weights.now owners.now others.now in
        let b = lent_with second_groups.now second_firsts.now second_seconds.now second_weights.now second_owners.now second_others.now in
        let ties = ties_from tie_firsts.now tie_seconds.now in
        let out = lent_with out_groups.old out_firsts.old out_seconds.old out_weights.old out_owners.old out_others.old in
        survey_with out_groups.new out_firsts.new out_seconds.new out_weights.new out_owners.new
        out_others.new ≡ merge_out a b ties out (length counts.old) }
    ensures counts { let a = lent_with groups.now firsts.now seconds.now weights.now owners.now others.now in
        let b = lent_with second_groups.now second_firsts.now second_seconds.now second_weights.now second_owners.now second_others.now in
        let ties = ties_from tie_firsts.now tie_seconds.now in
        let out = lent_with out_groups.old out_firsts.old out_seconds.old out_weights.old out_owners.old out_others.old in
        counts.new ≡ merge_counts a b ties (room_of out) counts.old }
{
    api_merge::merge_call(
        groups,
        firsts,
        seconds,
        weights,
        owners,
        others,
        second_groups,
        second_firsts,
        second_seconds,
        second_weights,
        second_owners,
        second_others,
        tie_firsts,
        tie_seconds,
        out_groups,
        out_firsts,
        out_seconds,
        out_weights,
        out_owners,
        out_others,
        counts,
    )
}

// A floor under every set of tracks that joins every group: none costs less. `counts` gets the floor, k, what the plan
// costs and its bound.
#[unsafe(no_mangle)]
pub extern "C" fn foamsickle_floor(
    groups: &[u8],
    firsts: &[u32],
    seconds: &[u32],
    weights: &[u32],
    owners: &[u32],
    others: &[u8],
    counts: &mut [u64],
) -> u64
    ensures code { let s = lent_with groups.now firsts.now seconds.now weights.now owners.now others.now in
        result ≡ code_of (floor_call s counts.old) }
    ensures counts { let s = lent_with groups.now firsts.now seconds.now weights.now owners.now others.now in
        counts.new ≡ floored_counts s counts.old }
{
    api_plan::floor_call(groups, firsts, seconds, weights, owners, others, counts)
}

// Checks marks and moat records against a survey with pairs. `counts` gets k, the kept cost and the bound.
#[unsafe(no_mangle)]
pub extern "C" fn foamsickle_check(
    groups: &[u8],
    firsts: &[u32],
    seconds: &[u32],
    weights: &[u32],
    owners: &[u32],
    others: &[u8],
    marks: &[u8],
    records: &[u8],
    counts: &mut [u64],
) -> u64
    ensures code { let s = lent_with groups.now firsts.now seconds.now weights.now owners.now others.now in
        result ≡ code_of (check_call s marks.now records.now counts.old) }
    ensures counts { let s = lent_with groups.now firsts.now seconds.now weights.now owners.now others.now in
        counts.new ≡ check_counts s marks.now records.now counts.old }
{
    api_check::check_call(
        groups, firsts, seconds, weights, owners, others, marks, records, counts,
    )
}

// Prints the line of a moat record. `counts` gets its length.
#[unsafe(no_mangle)]
pub extern "C" fn foamsickle_print_dual(part: &[u8], out: &mut [u8], counts: &mut [u64]) -> u64
    ensures code { result ≡ code_of (dual_call part.now out.old counts.old) }
    ensures out { out.new ≡ dual_out part.now out.old counts.old }
    ensures counts { counts.new ≡ dual_counts part.now out.old counts.old }
{
    api_print::print_dual_call(part, out, counts)
}

// Prints a plan from its figures, marks and moat records. `counts` gets the text's length.
#[unsafe(no_mangle)]
pub extern "C" fn foamsickle_print_plan(
    terminals: u64,
    cost: u64,
    bound: u64,
    rounds: u64,
    marks: &[u8],
    records: &[u8],
    out: &mut [u8],
    counts: &mut [u64],
) -> u64
    ensures code { let text = plan_text terminals cost bound rounds marks.now records.now in
        result ≡ code_of (text_call text out.old counts.old) }
    ensures out { let text = plan_text terminals cost bound rounds marks.now records.now in
        out.new ≡ text_out text out.old counts.old }
    ensures counts { let text = plan_text terminals cost bound rounds marks.now records.now in
        counts.new ≡ text_counts text out.old counts.old }
{
    api_print::print_plan_call(terminals, cost, bound, rounds, marks, records, out, counts)
}

// Prints a survey's text. `counts` gets its length.
#[unsafe(no_mangle)]
pub extern "C" fn foamsickle_print_survey(
    groups: &[u8],
    firsts: &[u32],
    seconds: &[u32],
    weights: &[u32],
    owners: &[u32],
    others: &[u8],
    out: &mut [u8],
    counts: &mut [u64],
) -> u64
    ensures code { let s = survey_lent groups.now firsts.now seconds.now weights.now owners.now others.now in
        result ≡ code_of (survey_call s out.old counts.old) }
    ensures out { let s = survey_lent groups.now firsts.now seconds.now weights.now owners.now others.now in
        out.new ≡ survey_out s out.old counts.old }
    ensures counts { let s = survey_lent groups.now firsts.now seconds.now weights.now owners.now others.now in
        counts.new ≡ survey_counts s out.old counts.old }
{
    api_print::print_survey_call(
        groups, firsts, seconds, weights, owners, others, out, counts,
    )
}

// Packs a track table, twelve bytes a track: the first bytes of all tracks, then all second bytes, and so on.
#[unsafe(no_mangle)]
pub extern "C" fn foamsickle_pack_table(table: &[u8], out: &mut [u8]) -> u64
    ensures code { result ≡ code_of (table_refusal (length table.now) (length out.old)) }
    ensures out { out.new ≡ packed_out table.now out.old }
{
    api_print::pack_table_call(table, out)
}

// Unpacks a packed table: its tracks, one after another.
#[unsafe(no_mangle)]
pub extern "C" fn foamsickle_unpack_table(table: &[u8], out: &mut [u8]) -> u64
    ensures code { result ≡ code_of (table_refusal (length table.now) (length out.old)) }
    ensures out { out.new ≡ unpacked_out table.now out.old }
{
    api_print::unpack_table_call(table, out)
}

// Checks a survey's text with a printed plan behind it. `counts` gets k, the kept cost and the bound.
#[unsafe(no_mangle)]
pub extern "C" fn foamsickle_verify(text: &[u8], counts: &mut [u64]) -> u64
    ensures code { result ≡ capped (code_of (verdict_of (verify_call text.now counts.old))) }
    ensures counts { counts.new ≡ counts_for (verify_call text.now counts.old) check_figures_of counts.old }
{
    api_check::verify_call(text, counts)
}

// Adds a survey to a season's report, planned or refused; all bytes 0 are the first report.
#[unsafe(no_mangle)]
pub extern "C" fn foamsickle_season_add(
    report: &mut [u8],
    groups: &[u8],
    firsts: &[u32],
    seconds: &[u32],
    weights: &[u32],
    owners: &[u32],
    others: &[u8],
) -> u64
    ensures code { let s = lent_with groups.now firsts.now seconds.now weights.now owners.now others.now in
        result ≡ code_of (season_call report.old s) }
    ensures report { let s = lent_with groups.now firsts.now seconds.now weights.now owners.now others.now in
        report.new ≡ season_bytes report.old s }
{
    api_season::season_call(report, groups, firsts, seconds, weights, owners, others)
}

// Prints a season's report. `counts` gets the text's length.
#[unsafe(no_mangle)]
pub extern "C" fn foamsickle_season_print(report: &[u8], out: &mut [u8], counts: &mut [u64]) -> u64
    ensures code { result ≡ code_of (print_call report.now out.old counts.old) }
    ensures out { out.new ≡ print_out report.now out.old counts.old }
    ensures counts { counts.new ≡ print_counts report.now out.old counts.old }
{
    api_season::print_season_call(report, out, counts)
}

// Plans a survey. `result` gets k, cost, bound, rounds and the number of moats.
#[unsafe(no_mangle)]
pub extern "C" fn foamsickle_handset_plan(
    groups: &[u8],
    firsts: &[u8],
    seconds: &[u8],
    weights: &[u8],
    owners: &[u8],
    others: &[u8],
    marks: &mut [u8],
    records: &mut [u8],
    res: &mut [u8],
) -> u64
    ensures code { let b = lent_slices groups.now firsts.now seconds.now weights.now owners.now others.now in
        result ≡ code_of (handset_plan b marks.old records.old res.old) }
    ensures marks { let b = lent_slices groups.now firsts.now seconds.now weights.now owners.now others.now in
        marks.new ≡ handset_marks b marks.old records.old res.old }
    ensures records { let b = lent_slices groups.now firsts.now seconds.now weights.now owners.now others.now in
        records.new ≡ handset_records b marks.old records.old res.old }
    ensures res { let b = lent_slices groups.now firsts.now seconds.now weights.now owners.now others.now in
        res.new ≡ handset_plan_result b marks.old records.old res.old }
{
    api_handset::handset_plan(
        groups, firsts, seconds, weights, owners, others, marks, records, res,
    )
}

// Checks marks and moat records against a survey. `result` gets k, the kept cost and the bound.
#[unsafe(no_mangle)]
pub extern "C" fn foamsickle_handset_check(
    groups: &[u8],
    firsts: &[u8],
    seconds: &[u8],
    weights: &[u8],
    owners: &[u8],
    others: &[u8],
    marks: &[u8],
    records: &[u8],
    res: &mut [u8],
) -> u64
    ensures code { let b = lent_slices groups.now firsts.now seconds.now weights.now owners.now others.now in
        result ≡ code_of (handset_check b marks.now records.now res.old) }
    ensures res { let b = lent_slices groups.now firsts.now seconds.now weights.now owners.now others.now in
        res.new ≡ handset_check_result b marks.now records.now res.old }
{
    api_handset::handset_check(
        groups, firsts, seconds, weights, owners, others, marks, records, res,
    )
}

// The version of this library: 10,000 times its first number, plus 100 times its second, plus its third.
const VERSION: u64 = 10000;

// The version, which the header's macro FOAMSICKLE_VERSION has too.
#[unsafe(no_mangle)]
pub extern "C" fn foamsickle_version() -> u64
    ensures { result ≡ 10000 }
{
    VERSION
}
