// The lengths of a plan, and its marks: up to 2, which means kept.
ghost use Rattle.std.specs.Prelude.{◌≡◌, [], get_or, ltb};
ghost use Rattle.base_limits.specs.Verdict.{refuse_if, lowest_below};
ghost use Rattle.survey_core.specs.Survey.{survey_from};
ghost use Rattle.check_rule.specs.Check.{shape_refusal};

use crate::scan::lowest;
use base_limits::{MAX_DUALS, RECORD_BYTES, Verdict};

// 9: lengths that fit no plan.
pub fn shape_refusal(firsts: &[u32], marks: &[u8], records: &[u8]) -> Verdict
    ensures { result ≡ shape_refusal (survey_from [] firsts.now [] []) marks.now records.now }
{
    if marks.len() != firsts.len() {
        return Verdict::Refused {
            number: 9,
            place: 0,
        };
    }
    if records.len() % RECORD_BYTES != 0 {
        return Verdict::Refused {
            number: 9,
            place: 0,
        };
    }
    if MAX_DUALS < records.len() / RECORD_BYTES {
        return Verdict::Refused {
            number: 9,
            place: 0,
        };
    }
    Verdict::Fine
}

// 10: a mark above 2.
fn mark_refusal(mark: u8, e: usize) -> Verdict
    ensures { result ≡ refuse_if (ltb 2 mark) 10 e }
{
    match mark {
        0 => Verdict::Fine,
        1 => Verdict::Fine,
        2 => Verdict::Fine,
        _ => Verdict::Refused {
            number: 10,
            place: e,
        },
    }
}

// The lowest edge below m with a mark above 2.
pub fn marks_refusal(m: usize, marks: &[u8]) -> Verdict
    ensures { result ≡ lowest_below m (λ e. refuse_if (ltb 2 (get_or marks.now e 0)) 10 e) }
{
    lowest(m, |e| mark_refusal(base_buffer::at(marks, e), e))
}
