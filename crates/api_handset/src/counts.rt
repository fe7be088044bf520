// Counts as bytes, lowest byte first. Definitions in specs/Words.
ghost use Rattle.std.specs.Prelude.{◌≡◌, ◌+◌, ◌≤◌, length};
ghost use Rattle.std.proofs.lemmas.List.Edits.{sets};
ghost use Rattle.format_record.specs.Bits.{low_bytes};
ghost use Rattle.api_handset.specs.Words.{figure_bytes, with_spelled};

use base_limits::VALUE_BYTES;

// One count, from byte `at` on.
fn write_figure(res: &mut [u8], at: usize, x: u64)
    requires { at + figure_bytes ≤ length res.old }
    ensures { res.new ≡ sets res.old at (low_bytes figure_bytes x) }
{
    let end = at + VALUE_BYTES;
    format_record::write_value(&mut res[at..end], x);
}

// Counts one after the other, at the beginning of a slice that holds them all.
pub fn write_counts(res: &mut [u8], counts: &[u64])
    ensures { res.new ≡ with_spelled res.old counts.now }
{
    if res.len() / VALUE_BYTES < counts.len() {
        return;
    }
    for (i, count) in counts.iter().enumerate() {
        write_figure(res, VALUE_BYTES * i, *count);
    }
}
