// The sum of all duals.
ghost use Rattle.std.specs.Prelude.{◌≡◌};
ghost use Rattle.theory_steiner.specs.Dual.{total};
ghost use Rattle.check_rule.specs.Check.{duals_in};
ghost use Rattle.check_core.specs.Moats.{DualsFit};

use crate::scan::total;

// The sum of all values: the bound.
pub fn bound(records: &[u8]) -> u64
    requires { DualsFit records.now }
    ensures { result ≡ total (duals_in records.now) }
{
    total(records, |part| format_record::value(part))
}
