// Track tables for the memory card: bytes of equal rank lie together, and back. Definitions in specs/.
#![tactic(auto)]

ghost use Rattle.std.specs.Prelude.{◌≡◌, ◌*◌, ◌++◌, length, drop};
ghost use Rattle.format_table.specs.Table.{turned, table_refusal, packed_out, unpacked_out};
ghost use Rattle.format_table.specs.Turning.{column_stored, Holds, HoldsColumn};

use base_limits::Verdict;

// Bytes of a track: two ends and a price, four each.
pub const TRACK_BYTES: usize = 12;

// 23 for a table that is not whole tracks, then 7 for a short result.
fn table_refusal(long: usize, room: usize) -> Verdict
    ensures { result ≡ table_refusal long room }
{
    if 0 < long % TRACK_BYTES {
        return Verdict::Refused {
            number: 23,
            place: 0,
        };
    }
    if room < long {
        return Verdict::Refused {
            number: 7,
            place: 0,
        };
    }
    Verdict::Fine
}

// Stores column j of a table, behind the columns before it.
fn turn_column(table: &[u8], rows: usize, columns: usize, j: usize, out: &mut [u8])
    requires { HoldsColumn rows columns j table.now out.old }
    ensures { out.new ≡ column_stored rows columns table.now j rows out.old }
{
    for i in 0..rows {
        out[j * rows + i] = table[i * columns + j];
    }
}

// Stores a table column by column.
fn turn(table: &[u8], rows: usize, columns: usize, out: &mut [u8])
    requires { Holds rows columns table.now out.old }
    ensures { out.new ≡ turned rows columns table.now ++ drop (rows * columns) out.old }
{
    for j in 0..columns {
        turn_column(table, rows, columns, j, out);
    }
}

// The first bytes of all tracks, then all second bytes, and so on.
pub fn pack_table(table: &[u8], out: &mut [u8]) -> Verdict
    ensures value { result ≡ table_refusal (length table.now) (length out.old) }
    ensures out_value { out.new ≡ packed_out table.now out.old }
{
    let found = table_refusal(table.len(), out.len());
    let Verdict::Fine = found else {
        return found;
    };
    turn(table, table.len() / TRACK_BYTES, TRACK_BYTES, out);
    Verdict::Fine
}

// The tracks of a packed table, one after another.
pub fn unpack_table(table: &[u8], out: &mut [u8]) -> Verdict
    ensures value { result ≡ table_refusal (length table.now) (length out.old) }
    ensures out_value { out.new ≡ unpacked_out table.now out.old }
{
    let found = table_refusal(table.len(), out.len());
    let Verdict::Fine = found else {
        return found;
    };
    turn(table, TRACK_BYTES, table.len() / TRACK_BYTES, out);
    Verdict::Fine
}
