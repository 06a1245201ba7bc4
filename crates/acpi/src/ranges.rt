//! The ranges of physical memory in which the tables lie.
ghost use Rattle.std.specs.Prelude.{◌≡◌, ◌≤◌, IfOk, ◌∷◌, ◌++◌, [], filter_map};
ghost use Rattle.acpi_base.specs.FromStd.{result_ok, cons_option, YieldsFirst, item_count};
ghost use Rattle.std.proofs.Props.{props};
ghost use Rattle.acpi_base.specs.Words.{Allows, own_table_ranges};
ghost use Rattle.acpi.specs.Footprint.{header_ranges};
ghost use Rattle.acpi.specs.Places.{facs_at, facs_length, facs_ranges, place_at};
ghost use Rattle.acpi.specs.Pointers.{pointers_left};

use crate::pointers::Pointers;
use crate::walk::{Asked, Found, next_found};
use acpi_base::sdt::{SdtHeader, map_own_sdt};
use acpi_base::{
    AcpiError, AcpiResult, AddressRange, Lender, PhysicalMapping, PhysicalRecord, Signature,
};

/// The ranges of physical memory in which the tables lie, as `AcpiTables::ranges` gives them: that of the
/// root table, then that of each valid member in the order of the root table, then those of the DSDT and
/// the FACS, if these are valid. A table that is listed twice comes twice.
#[derive(Drop)]
pub struct TableRanges<'t, 'h, H: Lender> {
    handler: &'h H,
    root: Option<AddressRange>,
    pointers: Pointers<'t>,
    dsdt: Option<AddressRange>,
    facs: Option<AddressRange>,
    ghost asked: { Allows (H.may handler.now)
        (header_ranges (H.memory handler.now) (pointers_left pointers)) } by { Prim.hlevel props },
}

impl<'t, 'h, H: Lender> TableRanges<'t, 'h, H> {
    ghost use Rattle.acpi.specs.Placed.{places_left};

    pub(crate) fn new(
        handler: &'h H,
        root: AddressRange,
        pointers: Pointers<'t>,
        dsdt: Option<AddressRange>,
        facs: Option<AddressRange>,
    ) -> Self
        requires { Allows (H.may handler.now)
            (header_ranges (H.memory handler.now) (pointers_left pointers)) }
        ensures { places_left H.memory result ≡ root ∷ (filter_map
            (λ p. result_ok (place_at (H.memory handler.now) p)) (pointers_left pointers.entry)
            ++ cons_option dsdt (cons_option facs [])) }
    {
        TableRanges {
            handler,
            root: Some(root),
            pointers,
            dsdt,
            facs,
        }
    }
}

impl<H: Lender> Iterator for TableRanges<'_, '_, H> {
    ghost use Rattle.acpi.specs.Placed.{places_left};

    type Item = AddressRange;

    ghost next_gives = { YieldsFirst (places_left H.memory) };

    ghost remaining = { item_count (places_left H.memory) };

    fn next(&mut self) -> Option<AddressRange> {
        if let Some(root) = self.root.take() {
            return Some(root);
        }
        if let Some(place) = next_found(self.handler, &mut self.pointers, 0) {
            return Some(place);
        }
        if let Some(dsdt) = self.dsdt.take() {
            return Some(dsdt);
        }
        self.facs.take()
    }
}

impl Asked for AddressRange {
    ghost ranges = { λ _ m. own_table_ranges m };
}

/// Where a table lies that is valid under the signature that it has.
impl Found for AddressRange {
    ghost found = { λ _ m p. result_ok (place_at m p) };

    #[tactic(auto, unfolding(crate::specs::Places::place_at))]
    fn at<H: Lender>(handler: &H, address: u64, _accept: u32) -> Option<AddressRange> {
        match map_own_sdt(handler, address) {
            Ok(table) => Some(AddressRange {
                address,
                length: table.region_length() as u64,
            }),
            Err(_) => None,
        }
    }
}

/// How many bytes a FACS has (section 5.2.10), by its Signature, bytes 0 to 3, and its Length, bytes 4 to 7. It has no
/// checksum.
///
/// Fails, in this order, with `SdtInvalidSignature` if the signature isn't `FACS`, and with `SdtInvalidLength` if the
/// length is under 64, both carrying the signature `FACS`.
#[tactic(auto, unfolding(crate::specs::Places::facs_length))]
pub fn facs_length(signature: Signature, length: u32) -> AcpiResult<u32>
    ensures exact { result ≡ facs_length signature length }
    ensures long { IfOk result (λ n. 64 ≤ n) }
{
    if signature != Signature::FACS {
        return Err(AcpiError::SdtInvalidSignature(Signature::FACS));
    }
    if length < 64 {
        return Err(AcpiError::SdtInvalidLength(Signature::FACS));
    }
    Ok(length)
}

/// Where the FACS at an address lies: it has the signature, gives a length of at least 64, and so
/// many bytes are lent.
#[tactic(auto, unfolding(crate::specs::Places::facs_at))]
pub(crate) fn facs_at<H: Lender>(handler: &H, address: u64) -> AcpiResult<AddressRange>
    requires { Allows (H.may handler.now) (facs_ranges (H.memory handler.now) address) }
    ensures { result ≡ facs_at (H.memory handler.now) address }
{
    let head = PhysicalMapping::<H, SdtHeader>::map(handler, address, SdtHeader::MIN_LENGTH)?;
    let length = facs_length(head.signature, head.length)?;
    drop(head);
    let whole = PhysicalMapping::<H, SdtHeader>::map(handler, address, length as usize)?;
    Ok(AddressRange {
        address,
        length: whole.region_length() as u64,
    })
}
