// The lowest of places in a row that is refused, and the sum of small values, one for each moat record.
ghost use Rattle.std.specs.Prelude.{◌≡◌, ◌<◌, ◌≤◌, ◌/◌, ℕ, length};
ghost use Rattle.std.specs.Fn.{FnReturnsAt};
ghost use Rattle.base_finite.specs.Below.{sum_below};
ghost use Rattle.base_limits.specs.Limits.{record_bytes, max_duals, max_value};
ghost use Rattle.base_limits.specs.Verdict.{lowest_below};
ghost use Rattle.base_limits.specs.declared.Verdict.{Verdict};
ghost use Rattle.format_record.specs.Record.{record_at};

use base_limits::{RECORD_BYTES, Verdict};

// What the lowest refused one of n places is refused for.
pub fn lowest<F: Fn(usize) -> Verdict>(n: usize, refusal: F) -> Verdict
    requires { F.IsAlwaysCallable refusal }
    ensures { (f : ℕ → Verdict) → ((i : ℕ) (v : Verdict) → i < n → F.post refusal i v → v ≡ f i)
        → result ≡ lowest_below n f }
{
    for i in 0..n {
        let found = refusal(i);
        let Verdict::Fine = found else {
            return found;
        };
    }
    Verdict::Fine
}

// The sum of the values of all records.
pub fn total<F: Fn(&[u8]) -> u64>(records: &[u8], value: F) -> u64
    requires callable { F.IsAlwaysCallable value }
    requires few { length records.now / record_bytes ≤ max_duals }
    requires small { (i x : ℕ) → i < length records.now / record_bytes
        → FnReturnsAt F.Fn value (record_at records.now i) x → x ≤ max_value }
    ensures { (f : ℕ → ℕ) → ((i x : ℕ) → i < length records.now / record_bytes
        → FnReturnsAt F.Fn value (record_at records.now i) x → x ≡ f i)
        → result ≡ sum_below (length records.now / record_bytes) f }
{
    let mut sum: u64 = 0;
    for i in 0..records.len() / RECORD_BYTES {
        sum += value(format_record::record(records, i));
    }
    sum
}
