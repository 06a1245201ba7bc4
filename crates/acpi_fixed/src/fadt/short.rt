//! Tables that end before their extended blocks do, or are of revision 1 (section 5.2.9).
ghost use Rattle.std.specs.Prelude.{◌≡◌, ◌≤◌, length};
ghost use Rattle.acpi_fixed.specs.Words.{kept_of, whole_of};

use super::registers::{BLOCKS_END, reach_in};
use acpi_base::bytes::filled;

/// How many bytes of such a table count: those up to the first extended field that it lacks.
fn kept_in(table: &[u8]) -> usize
    requires { 116 ≤ length table.now }
    ensures value { result ≡ kept_of table.now }
    ensures there { result ≤ length table.now }
{
    let reach = reach_in(table);
    if reach < 140 {
        return if table.len() < 132 { table.len() } else { 132 };
    }
    if reach < 148 {
        return 140;
    }
    148 + (reach - 148) / 12 * 12
}

/// The table as one of revision 2 that has all extended blocks: zeros are in place of the fields that it lacks.
pub(super) fn whole(table: &[u8]) -> [u8; BLOCKS_END]
    requires { 116 ≤ length table.now }
    ensures { result ≡ whole_of table.now }
{
    let mut whole: [u8; BLOCKS_END] = filled(&table[..kept_in(table)], 0);
    whole[8] = 2; // FADT Major Version
    whole
}
