//! The headers of all valid tables.
ghost use Rattle.std.proofs.Props.{props};
ghost use Rattle.std.specs.Prelude.{◌≡◌};
ghost use Rattle.acpi_base.specs.FromStd.{YieldsFirst, item_count, result_ok};
ghost use Rattle.acpi_base.specs.Words.{Allows, own_table_ranges};
ghost use Rattle.acpi.specs.Footprint.{header_ranges};
ghost use Rattle.acpi.specs.Pointers.{pointers_left};

use crate::members::own_header;
use crate::pointers::Pointers;
use crate::walk::{Asked, Found, next_found};
use acpi_base::Lender;
use acpi_base::sdt::SdtHeader;

/// The headers (section 5.2.6) of all members that are valid under the signatures that they have, in the
/// order of the root table, as `AcpiTables::headers` gives them. A table that is listed twice comes twice.
#[derive(Drop)]
pub struct SdtHeaderIterator<'t, 'h, H: Lender> {
    handler: &'h H,
    pointers: Pointers<'t>,
    ghost asked: { Allows (H.may handler.now)
        (header_ranges (H.memory handler.now) (pointers_left pointers)) } by { Prim.hlevel props },
}

impl<'t, 'h, H: Lender> SdtHeaderIterator<'t, 'h, H> {
    ghost use Rattle.acpi.specs.Lists.{valid_headers};
    ghost use Rattle.acpi.specs.Walks.{headers_left};

    pub(crate) fn new(handler: &'h H, pointers: Pointers<'t>) -> Self
        requires { Allows (H.may handler.now)
            (header_ranges (H.memory handler.now) (pointers_left pointers)) }
        ensures { headers_left H.memory result
            ≡ valid_headers (H.memory handler.now) (pointers_left pointers.entry) }
    {
        SdtHeaderIterator { handler, pointers }
    }
}

impl<H: Lender> Iterator for SdtHeaderIterator<'_, '_, H> {
    ghost use Rattle.acpi.specs.Walks.{headers_left};

    type Item = SdtHeader;

    ghost next_gives = { YieldsFirst (headers_left H.memory) };

    ghost remaining = { item_count (headers_left H.memory) };

    fn next(&mut self) -> Option<SdtHeader> {
        next_found(self.handler, &mut self.pointers, 0)
    }
}

impl Asked for SdtHeader {
    ghost ranges = { λ _ m. own_table_ranges m };
}

impl Found for SdtHeader {
    ghost use Rattle.acpi.specs.Lists.{own_header_at};

    ghost found = { λ _ m p. result_ok (own_header_at m p) };

    fn at<H: Lender>(handler: &H, address: u64, _accept: u32) -> Option<SdtHeader> {
        own_header(handler, address).ok()
    }
}
