//! Mappings that a scene keeps.

use crate::out::Out;
use crate::words::{first_word, number_of, signature_of};
use acpi::bgrt::Bgrt;
use acpi::sdt::{SdtHeader, map_own_sdt, map_sdt, map_table};
use acpi::{AcpiHandler, AcpiResult, Lender, PhysicalMapping};

/// A mapping that a scene keeps.
#[derive(Drop)]
pub(super) enum Kept<'h, H: Lender> {
    Graphic(PhysicalMapping<'h, H, Bgrt>),
    Header(PhysicalMapping<'h, H, SdtHeader>),
}

impl<H: AcpiHandler> Kept<'_, H> {
    /// Prints where it is.
    pub(super) fn place(&self, out: Out<'_>) {
        match self {
            Kept::Graphic(mapping) => out.place(mapping),
            Kept::Header(mapping) => out.place(mapping),
        }
    }

    /// Prints what it holds, and its bytes.
    pub(super) fn show(&self, out: Out<'_>) {
        match self {
            Kept::Header(header) => {
                out.show(&(header.signature, header.length));
                out.bytes(header.bytes());
            }
            Kept::Graphic(graphic) => {
                out.spread(&(
                    (graphic.version, graphic.was_displayed()),
                    (graphic.orientation_offset(), graphic.image_type()),
                    (graphic.image_address, graphic.image_offset()),
                ));
                out.bytes(graphic.bytes());
            }
        }
    }
}

/// What is at an address: a graphic (`table`), or a header, as a table of a name (`named`), of its own name (`own`),
/// in bytes that were mapped before (`given`) or by itself (`map`).
pub(super) fn mapped<'h, H: AcpiHandler>(
    handler: &'h H,
    call: &str,
    rest: &str,
) -> AcpiResult<Kept<'h, H>> {
    let (address, name) = first_word(rest);
    let address = number_of(address);
    if call == "table" {
        return Ok(Kept::Graphic(map_table(handler, address)?));
    }
    let header = match call {
        "named" => map_sdt(handler, address, signature_of(name)),
        "own" => map_own_sdt(handler, address),
        "given" => given(handler, address),
        _ => PhysicalMapping::map(handler, address, 36),
    };
    Ok(Kept::Header(header?))
}

/// A header at an address, in 40 bytes that are mapped there.
fn given<H: AcpiHandler>(
    handler: &H,
    address: u64,
) -> AcpiResult<PhysicalMapping<'_, H, SdtHeader>> {
    let bytes = handler.map_physical_region(address, 40)?;
    Ok(PhysicalMapping::new(address, bytes, 40, handler))
}
