// The checker's answer, then the counts that a printed plan claims, held against what it finds.
ghost use Rattle.std.specs.Prelude.{◌≡◌};
ghost use Rattle.survey_core.specs.Survey.{lent_with};
ghost use Rattle.check_rule.specs.Check.{checking};
ghost use Rattle.check_core.specs.Stage.{checked_outcome};
ghost use Rattle.check_printed.specs.Verify.{claims_judged};
ghost use Rattle.check_printed.specs.Answer.{verified_outcome, refused_only};

use crate::Verified;
use check_core::Checking;

// What the checker refuses, in the same way.
fn stopped_check(found: Checking) -> Verified
    ensures { verified_outcome result ≡ refused_only (checked_outcome found) }
{
    match found {
        Checking::Refused { number, place } => Verified::Refused { number, place },
        Checking::Passed {
            terminals: _,
            cost: _,
            bound: _,
        } => Verified::Refused {
            number: 16,
            place: 0,
        },
    }
}

// Marks and records against a survey, then the counts that are claimed for them.
pub fn judge(
    groups: &[u8],
    firsts: &[u32],
    seconds: &[u32],
    weights: &[u32],
    owners: &[u32],
    others: &[u8],
    marks: &[u8],
    records: &[u8],
    terminals: u64,
    cost: u64,
    bound: u64,
) -> Verified
    ensures { let s = lent_with groups.now firsts.now seconds.now weights.now owners.now others.now in
        verified_outcome result ≡ claims_judged (checking s marks.now records.now) terminals cost bound }
{
    let found = check_core::check(
        groups, firsts, seconds, weights, owners, others, marks, records,
    );
    let Checking::Passed {
        terminals: k,
        cost: c,
        bound: b,
    } = found
    else {
        return stopped_check(found);
    };
    if k != terminals {
        return Verified::Refused {
            number: 25,
            place: 0,
        };
    }
    if c != cost {
        return Verified::Refused {
            number: 25,
            place: 1,
        };
    }
    if b != bound {
        return Verified::Refused {
            number: 25,
            place: 2,
        };
    }
    Verified::Passed {
        terminals: k,
        cost: c,
        bound: b,
    }
}
