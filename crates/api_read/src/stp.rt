// Reading an STP text for a caller that gets one number back and its counts in a lent buffer. Definitions in specs/.
ghost use Rattle.std.specs.Prelude.{◌≡◌, length, ◌≤◌};
ghost use Rattle.format_survey.specs.Reading.{filled};
ghost use Rattle.format_survey.specs.Line.{firsts_of, seconds_of, weights_of};
ghost use Rattle.format_stp.specs.Promises.{stp_buffers, StpPromises};
ghost use Rattle.format_stp.specs.Answer.{stp_answer, stp_counts_of};
ghost use Rattle.api_code.specs.Code.{code_of, capped, verdict_of, counts_for};
ghost use Rattle.api_read.specs.StpCall.{stp_figures, stp_figures_of, stp_call};

use format_stp::StpRead;

// Entries of the counts.
pub const STP_FIGURES: usize = 2;

// What reading answered, as one number; `counts` gets n and m.
fn stp_code(answer: StpRead, counts: &mut [u64]) -> u64
    ensures value { result ≡ capped (code_of (verdict_of (stp_answer answer))) }
    ensures counts_value { counts.new ≡ counts_for (stp_answer answer) stp_figures_of counts.old }
{
    match answer {
        StpRead::Survey { vertices, edges } => {
            api_code::store_two(counts, vertices as u64, edges as u64);
            0
        }
        StpRead::Refused { number, place } => api_code::code(number, place),
    }
}

// Reads an STP text. `counts` gets n and m.
pub fn stp_call(
    text: &[u8],
    groups: &mut [u8],
    firsts: &mut [u32],
    seconds: &mut [u32],
    weights: &mut [u32],
    counts: &mut [u64],
) -> u64
    ensures code { let read = stp_call text.now groups.old firsts.old seconds.old weights.old (length counts.old) in
        result ≡ capped (code_of (verdict_of read)) }
    ensures groups { let read = stp_call text.now groups.old firsts.old seconds.old weights.old (length counts.old) in
        groups.new ≡ filled read (λ x. x.groups) groups.old }
    ensures firsts { let read = stp_call text.now groups.old firsts.old seconds.old weights.old (length counts.old) in
        firsts.new ≡ filled read (λ x. firsts_of x.lines) firsts.old }
    ensures seconds { let read = stp_call text.now groups.old firsts.old seconds.old weights.old (length counts.old) in
        seconds.new ≡ filled read (λ x. seconds_of x.lines) seconds.old }
    ensures weights { let read = stp_call text.now groups.old firsts.old seconds.old weights.old (length counts.old) in
        weights.new ≡ filled read (λ x. weights_of x.lines) weights.old }
    ensures counts { let read = stp_call text.now groups.old firsts.old seconds.old weights.old (length counts.old) in
        counts.new ≡ counts_for (stp_counts_of read) stp_figures_of counts.old }
    ensures promises { let read = stp_call text.now groups.old firsts.old seconds.old weights.old (length counts.old) in
        let before = stp_buffers groups.old firsts.old seconds.old weights.old in
        let after = stp_buffers groups.new firsts.new seconds.new weights.new in
        (stp_figures ≤ length counts.old → StpPromises text.now before (stp_counts_of read) after) }
{
    let room = api_code::lent_on(counts.len(), STP_FIGURES, groups.len());
    let answer = format_stp::read_stp(text, &mut groups[0..room], firsts, seconds, weights);
    stp_code(answer, counts)
}
