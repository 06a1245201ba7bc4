//! A caller over a handler of which only named ranges may be requested.
ghost use Rattle.std.specs.Prelude.{◌≡◌};
ghost use Rattle.acpi_base.specs.Ranges.{Allows};
ghost use Rattle.acpi_examples.specs.Guarded.{graphic_ranges};

use acpi::bgrt::Bgrt;
use acpi::{AcpiHandler, AcpiResult, AcpiTables, Guarded, Lender};

/// The physical address of the boot graphic, found from the RSDT at an address. It requests the RSDT, and
/// for each table listed there up to the boot graphic's, and for nothing else.
pub fn graphic_of<L: Lender>(lender: &L, rsdt: u64) -> AcpiResult<u64>
    requires { Allows (L.may lender.now) (graphic_ranges (L.memory lender.now) rsdt) }
{
    let tables = AcpiTables::from_rsdt(lender, 0, rsdt)?;
    let graphic = tables.find_table::<Bgrt>()?;
    Ok(graphic.image_address)
}

/// The physical address of the boot graphic, found from the RSDT at an address, over a handler of which only
/// these ranges may be requested.
pub fn graphic_within<H: AcpiHandler>(
    memory: &H,
    ranges: &[(u64, usize)],
    rsdt: u64,
) -> AcpiResult<u64>
    requires { ranges.now ≡ graphic_ranges (H.memory memory.now) rsdt }
{
    graphic_of(&Guarded::new(memory, ranges), rsdt)
}
