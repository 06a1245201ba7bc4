//! The least that a caller writes.

use acpi::bgrt::Bgrt;
use acpi::{AcpiHandler, AcpiResult, AcpiTables};

/// The physical address of the boot graphic, found from the RSDP at an address.
pub fn graphic_address<H: AcpiHandler>(memory: &H, rsdp: u64) -> AcpiResult<u64> {
    let tables = AcpiTables::from_rsdp(memory, rsdp)?;
    let graphic = tables.find_table::<Bgrt>()?;
    Ok(graphic.image_address)
}
