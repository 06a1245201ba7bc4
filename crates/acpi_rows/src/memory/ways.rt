//! Ways to the tables in a memory, and searches for an RSDP.

use crate::words::{areas_of, number_of};
use acpi::rsdp::Rsdp;
use acpi::{AcpiHandler, AcpiResult, AcpiTables, PhysicalMapping};
use std::alloc::Global;

/// The tables that a way leads to: `bios`, `validated` (by the mapping that the search for an RSDP alone finds),
/// `areas` (by a search in these), `rsdp ADDRESS`, or `rsdt REVISION ADDRESS` for a root table.
pub(super) fn open<'h, H: AcpiHandler>(
    alloc: Global,
    handler: &'h H,
    way: &str,
    place: &str,
) -> AcpiResult<AcpiTables<'h, H>> {
    let (number, address) = place.rsplit_once(' ').unwrap_or(("", place));
    let address = number_of(address);
    match way {
        "areas" => AcpiTables::search_in(handler, &areas_of(alloc, place)?),
        "bios" => AcpiTables::search_for_rsdp_bios(handler),
        "validated" => {
            AcpiTables::from_validated_rsdp(handler, Rsdp::search_for_on_bios(handler)?)
        }
        "rsdp" => AcpiTables::from_rsdp(handler, address),
        _ => AcpiTables::from_rsdt(handler, (number_of(number) % 0x100) as u8, address),
    }
}

/// The RSDP that a search finds in the BIOS areas, or in the areas that a text lists.
pub(super) fn found<'h, H: AcpiHandler>(
    alloc: Global,
    handler: &'h H,
    call: &str,
    areas: &str,
) -> AcpiResult<PhysicalMapping<'h, H, Rsdp>> {
    match call {
        "search" => Rsdp::search_for_on_bios(handler),
        _ => Rsdp::search_in(handler, &areas_of(alloc, areas)?),
    }
}
