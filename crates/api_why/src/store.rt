// What asking why answered, as one number and six in lent counts. Definitions in specs/.
ghost use Rattle.std.specs.Prelude.{◌≡◌, [], ◌∷◌};
ghost use Rattle.std.proofs.lemmas.List.Edits.{sets};
ghost use Rattle.why_rule.specs.Answer.{why_outcome};
ghost use Rattle.api_why.specs.Stored.{answer_code, answer_stored};

use why_rule::Why;

// Six counts, at the beginning of a buffer.
fn store_six(
    counts: &mut [u64],
    kind: u64,
    group: u64,
    smaller: u64,
    larger: u64,
    entries: u64,
    round: u64,
)
    ensures { counts.new ≡ sets counts.old 0 (kind ∷ group ∷ smaller ∷ larger ∷ entries ∷ round ∷ []) }
{
    api_code::store_five(counts, kind, group, smaller, larger, entries);
    base_buffer::put(counts, 5, round);
}

// Stores the numbers of a reason and answers 0; or answers a refusal's code, and stores nothing.
pub fn store_answer(told: Why, counts: &mut [u64]) -> u64
    ensures value { result ≡ answer_code (why_outcome told) }
    ensures counts_value { counts.new ≡ answer_stored (why_outcome told) counts.old }
{
    match told {
        Why::Kept {
            group,
            smaller,
            larger,
            entries,
        } => {
            store_six(counts, 2, group, smaller, larger, entries, 0);
            0
        }
        Why::Dropped => {
            store_six(counts, 1, 0, 0, 0, 0, 0);
            0
        }
        Why::Passed { round } => {
            store_six(counts, 0, 0, 0, 0, 0, round);
            0
        }
        Why::Refused { number, place } => api_code::code(number, place),
    }
}
