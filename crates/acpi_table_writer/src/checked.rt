//! What has to be checked of each thing in a list before a table is written.
ghost use Rattle.std.specs.Prelude.{◌≡◌, Result};
ghost use Rattle.acpi_bytes.specs.Steps as steps;
ghost use Rattle.acpi_table_writer.specs.Checked.{all_checked};
ghost use Rattle.acpi_table_writer.specs.Types.{WriterError};

use crate::error::WriterError;

/// Something that a table may have no place for.
pub trait Checked {
    // The error, if a table has none.
    ghost checked: { Self → Result (Unit {0}) WriterError };

    /// Returns an error if a table has no place for it.
    fn check(&self) -> Result<(), WriterError>
        ensures { result ≡ checked self.now };
}

/// Returns the first error.
pub(crate) fn check_all<T: Checked>(xs: &[T]) -> Result<(), WriterError>
    ensures { result ≡ all_checked T.checked xs.now }
{
    for x in xs {
        x.check()?;
    }
    Ok(())
}

/// Returns an error if something doesn't hold.
pub fn require<E: Copy>(holds: bool, error: E) -> Result<(), E>
    ensures { result ≡ steps.holds holds error }
{
    if holds { Ok(()) } else { Err(error) }
}
