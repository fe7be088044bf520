// What growing answers.
ghost use Rattle.std.specs.Prelude.{◌≡◌};
ghost use Rattle.base_limits.specs.Verdict.{answer};
ghost use Rattle.plan_rule.specs.Answer.{planned_outcome};

use plan_rule::Planned;

// What growing answers; nothing is kept yet, so the cost is 0.
pub fn grown_counts(terminals: u64, bound: u64, rounds: usize, duals: usize) -> Planned
    ensures { planned_outcome result ≡ answer
        (record { terminals = terminals; cost = 0; bound = bound; rounds = rounds; duals = duals }) }
{
    Planned::Finished {
        terminals,
        cost: 0,
        bound,
        rounds: rounds as u64,
        duals: duals as u64,
    }
}
