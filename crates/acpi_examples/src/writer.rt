//! A caller that writes a guest's tables, and reads them as the guest will.
ghost use Rattle.std.specs.Prelude.{◌≡◌, length, IfOk};

use acpi::{AcpiError, AcpiTables};
use acpi_image::{ImageError, MemoryImage, PlacedTable, WriteError, write_image};
use std::alloc::Global;

/// Why a guest's tables can't be written or read.
#[derive(Clone, Copy, Debug, PartialEq, Eq)]
pub enum GuestError {
    /// No image is written.
    Unwritten(WriteError),
    /// The image is not read back.
    Unread(ImageError),
    /// The image's root table is not opened.
    Unopened(AcpiError),
}

impl From<WriteError> for GuestError {
    fn from(error: WriteError) -> Self {
        GuestError::Unwritten(error)
    }
}

impl From<ImageError> for GuestError {
    fn from(error: ImageError) -> Self {
        GuestError::Unread(error)
    }
}

impl From<AcpiError> for GuestError {
    fn from(error: AcpiError) -> Self {
        GuestError::Unopened(error)
    }
}

/// How many tables a guest finds that starts from the RSDP at 0x500, if these are placed: all.
pub fn tables_of_guest(alloc: Global, placed: &[PlacedTable<'_>]) -> Result<usize, GuestError>
    ensures { IfOk result (λ n. n ≡ length placed.now) }
{
    let file = write_image(alloc, 0x500, 0x1000, 2, placed)?;
    let image = MemoryImage::from_bytes(alloc, &file)?;
    let tables = AcpiTables::from_rsdp(&image, 0x500)?;
    Ok(tables.headers().count())
}
