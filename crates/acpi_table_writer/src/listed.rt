//! A table that a machine can list, by its contents: as `TableContents` has it, or in records of a caller's own.
ghost use Rattle.std.specs.Prelude.{◌≡◌, ℕ, ◌^◌, ◌<◌, List, Result, Ok, length, IfOk};
ghost use Rattle.acpi_table_writer.specs.Listed.{or_none, sized};
ghost use Rattle.acpi_table_writer.specs.Types.{WriterError, TableIds};

use crate::error::WriterError;
use crate::ids::TableIds;

/// A table that a machine can list, by its contents.
pub trait Listed {
    // The table, or the first error.
    ghost written: { TableIds → Self → Result (List ℕ) WriterError };

    // Each of its numbers has a place there.
    ghost fits: { Self → Type 0 };

    /// How many bytes the table has, or the first error.
    fn size(&self, ids: &TableIds) -> Result<usize, WriterError>
        ensures exact { result ≡ sized (written ids.now self.now) }
        ensures short { IfOk result (λ n. n < 2 ^ 32) }
        ensures fits { IfOk result (λ n. fits self.now) };

    /// Puts the table in place of all bytes of a slice that is as long.
    fn put(&self, out: &mut [u8], ids: &TableIds)
        requires { sized (written ids.now self.now) ≡ Ok (length out.old) }
        ensures { out.new ≡ or_none (written ids.now self.now) };
}
