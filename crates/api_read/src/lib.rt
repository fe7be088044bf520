// Reading for a caller that gets one number back and the counts in a lent buffer. Definitions in specs/Call and
// specs/StpCall. `read_call` reads a survey's text, `stp_call` an STP file.
#![tactic(auto)]

ghost use Rattle.std.specs.Prelude.{◌≡◌, length};
ghost use Rattle.format_survey.specs.Answer.{counts_outcome, counts_of};
ghost use Rattle.api_code.specs.Code.{code_of, capped, verdict_of, counts_for};
ghost use Rattle.api_read.specs.Call.{read_figures_of, read_call};
ghost use Rattle.format_survey.specs.Line.{lent_lengths};
ghost use Rattle.format_survey.specs.Reading.{filled};

use format_survey::Reading;

mod stp;

pub use stp::stp_call;

// Entries of the counts.
pub const READ_FIGURES: usize = 3;

// What reading answered, as one number; `counts` gets n, m and the number of pairs.
pub fn read_code(answer: Reading, counts: &mut [u64]) -> u64
    ensures value { result ≡ capped (code_of (verdict_of (counts_outcome answer))) }
    ensures counts_value { counts.new ≡ counts_for (counts_outcome answer) read_figures_of counts.old }
{
    match answer {
        Reading::Survey {
            vertices,
            edges,
            pairs,
        } => {
            api_code::store_three(counts, vertices as u64, edges as u64, pairs as u64);
            0
        }
        Reading::Refused { number, place } => api_code::code(number, place),
    }
}

// Reads a survey's text. `counts` gets n, m and the number of pairs.
pub fn read_call(
    text: &[u8],
    groups: &mut [u8],
    firsts: &mut [u32],
    seconds: &mut [u32],
    weights: &mut [u32],
    owners: &mut [u32],
    others: &mut [u8],
    counts: &mut [u64],
) -> u64
    ensures code { let lent = lent_lengths groups.old firsts.old seconds.old weights.old owners.old others.old in
        let read = read_call text.now lent (length counts.old) in
        result ≡ code_of (verdict_of read) }
    ensures groups { let lent = lent_lengths groups.old firsts.old seconds.old weights.old owners.old others.old in
        let read = read_call text.now lent (length counts.old) in
        groups.new ≡ filled read (λ s. s.groups) groups.old }
    ensures firsts { let lent = lent_lengths groups.old firsts.old seconds.old weights.old owners.old others.old in
        let read = read_call text.now lent (length counts.old) in
        firsts.new ≡ filled read (λ s. s.firsts) firsts.old }
    ensures seconds { let lent = lent_lengths groups.old firsts.old seconds.old weights.old owners.old others.old in
        let read = read_call text.now lent (length counts.old) in
        seconds.new ≡ filled read (λ s. s.seconds) seconds.old }
    ensures weights { let lent = lent_lengths groups.old firsts.old seconds.old weights.old owners.old others.old in
        let read = read_call text.now lent (length counts.old) in
        weights.new ≡ filled read (λ s. s.weights) weights.old }
    ensures owners { let lent = lent_lengths groups.old firsts.old seconds.old weights.old owners.old others.old in
        let read = read_call text.now lent (length counts.old) in
        owners.new ≡ filled read (λ s. s.owners) owners.old }
    ensures others { let lent = lent_lengths groups.old firsts.old seconds.old weights.old owners.old others.old in
        let read = read_call text.now lent (length counts.old) in
        others.new ≡ filled read (λ s. s.others) others.old }
    ensures counts { let lent = lent_lengths groups.old firsts.old seconds.old weights.old owners.old others.old in
        let read = read_call text.now lent (length counts.old) in
        counts.new ≡ counts_for (counts_of read) read_figures_of counts.old }
{
    let room = api_code::lent_on(counts.len(), READ_FIGURES, groups.len());
    let answer = format_survey::read(
        text,
        &mut groups[0..room],
        firsts,
        seconds,
        weights,
        owners,
        others,
    );
    read_code(answer, counts)
}
