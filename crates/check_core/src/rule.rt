// The accuracy rule's premise over counts.
ghost use Rattle.std.specs.Prelude.{◌≡◌};
ghost use Rattle.check_rule.specs.Check.{rule_refusal};
ghost use Rattle.check_core.specs.Stage.{checked_as, CountsFit};

use base_limits::Verdict;

// 15: a cost with no terminal, or k times cost above k - 1 times bound.
pub fn rule_refusal(terminals: u64, cost: u64, bound: u64) -> Verdict
    requires { CountsFit terminals cost bound }
    ensures { result ≡ rule_refusal (checked_as terminals cost bound) }
{
    if terminals == 0 {
        if cost == 0 {
            return Verdict::Fine;
        }
        return Verdict::Refused {
            number: 15,
            place: 0,
        };
    }
    if (terminals - 1) * bound < terminals * cost {
        return Verdict::Refused {
            number: 15,
            place: 0,
        };
    }
    Verdict::Fine
}
