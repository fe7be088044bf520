// What is wrong with ties: 2 and 22.
ghost use Rattle.std.specs.Prelude.{◌≡◌};
ghost use Rattle.merge_rule.specs.Ties.{ties_from};
ghost use Rattle.merge_rule.specs.Refusal.{tie_refusal, ties_refusal};

use crate::find::find_in;
use base_buffer::at;
use base_limits::Verdict;

// 22 at tie i: a junction out of range, or one that a lower tie names on the same side.
fn tie_refusal(n: usize, m: usize, firsts: &[u32], seconds: &[u32], i: usize) -> Verdict
    ensures { result ≡ tie_refusal n m (ties_from firsts.now seconds.now) i }
{
    let first = at(firsts, i) as usize;
    let second = at(seconds, i) as usize;
    if n <= first {
        return Verdict::Refused {
            number: 22,
            place: i,
        };
    }
    if m <= second {
        return Verdict::Refused {
            number: 22,
            place: i,
        };
    }
    if find_in(firsts, i, first) < i {
        return Verdict::Refused {
            number: 22,
            place: i,
        };
    }
    if find_in(seconds, i, second) < i {
        return Verdict::Refused {
            number: 22,
            place: i,
        };
    }
    Verdict::Fine
}

// 2 where the buffers differ in length, then 22 at the lowest tie that has something wrong.
pub fn ties_refusal(n: usize, m: usize, firsts: &[u32], seconds: &[u32]) -> Verdict
    ensures { result ≡ ties_refusal n m (ties_from firsts.now seconds.now) }
{
    if firsts.len() != seconds.len() {
        return Verdict::Refused {
            number: 2,
            place: 0,
        };
    }
    for i in 0..firsts.len() {
        let found = tie_refusal(n, m, firsts, seconds, i);
        let Verdict::Fine = found else {
            return found;
        };
    }
    Verdict::Fine
}
