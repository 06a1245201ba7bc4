//! Tables one after the other, each filled up with zeros to a multiple of 16.
ghost use Rattle.std.specs.Prelude.{◌≡◌, ◌+◌, ◌^◌, ◌<◌, ◌≤◌, ◌++◌, length, take, drop, replicate};
ghost use Rattle.acpi_writer.specs.Contents.{placed_by};
ghost use Rattle.acpi_writer.specs.Laid.{gap, rounded};

use acpi_table_writer::ids::TableIds;
use acpi_table_writer::listed::Listed;

/// The least multiple of 16 that isn't below a number.
pub(crate) fn rounded(n: usize) -> usize
    requires { n < 2 ^ 63 }
    ensures { result ≡ rounded n }
{
    n + (15 - (n + 15) % 16)
}

/// Puts zeros after this number of bytes, up to a multiple of 16, which it returns.
pub(crate) fn fill_up(out: &mut [u8], size: usize) -> usize
    requires { rounded size ≤ length out.old }
    ensures bytes { out.new ≡ take size out.old ++ (replicate (gap size) 0 ++ drop (rounded size) out.old) }
    ensures size { result ≡ rounded size }
{
    let end = rounded(size);
    out[size..end].fill(0);
    end
}

/// Puts a table to the front of a slice, filled up with zeros to a multiple of 16, and returns how many bytes these
/// are. One that can't be written has none.
pub(crate) fn put<T: Listed>(table: &T, out: &mut [u8], ids: &TableIds) -> usize
    requires { length (placed_by T.written ids.now table.now) ≤ length out.old }
    ensures bytes { out.new ≡ placed_by T.written ids.now table.now
        ++ drop (length (placed_by T.written ids.now table.now)) out.old }
    ensures size { result ≡ length (placed_by T.written ids.now table.now) }
{
    match table.size(ids) {
        Ok(size) => {
            table.put(&mut out[..size], ids);
            fill_up(out, size)
        }
        Err(_) => 0,
    }
}

/// How many bytes `put` puts.
pub(crate) fn place<T: Listed>(table: &T, ids: &TableIds) -> usize
    ensures size { result ≡ length (placed_by T.written ids.now table.now) }
    ensures short { result ≤ 2 ^ 32 }
{
    match table.size(ids) {
        Ok(size) => rounded(size),
        Err(_) => 0,
    }
}
