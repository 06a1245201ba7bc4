//! The AML of all accepted SSDTs.
ghost use Rattle.std.proofs.Props.{props};
ghost use Rattle.std.specs.Prelude.{◌≡◌};
ghost use Rattle.acpi_base.specs.FromStd.{YieldsFirst, item_count, result_ok};
ghost use Rattle.acpi_base.specs.Words.{Allows, accepted, table_ranges, plain_kind};
ghost use Rattle.acpi.specs.Members.{kind_ranges};
ghost use Rattle.acpi.specs.Types.{SSDT};
ghost use Rattle.acpi.specs.Pointers.{pointers_left};

use crate::pointers::Pointers;
use crate::records::{AmlTable, stream_at};
use crate::walk::{Asked, Found, next_found};
use acpi_base::Lender;
use acpi_base::sdt::Signature;

/// The AML of all members that are accepted as SSDTs (section 5.2.11.2), in the order of the root table, as
/// `AcpiTables::ssdts` gives it. A table that is listed twice comes twice.
#[derive(Drop)]
pub struct SsdtIterator<'t, 'h, H: Lender> {
    handler: &'h H,
    pointers: Pointers<'t>,
    accept: u32,
    ghost asked: { Allows (H.may handler.now)
        (kind_ranges (H.memory handler.now) (accepted accept (plain_kind SSDT)) (pointers_left pointers)) } by { Prim.hlevel props },
}

impl<'t, 'h, H: Lender> SsdtIterator<'t, 'h, H> {
    ghost use Rattle.acpi.specs.Lists.{streams_by};
    ghost use Rattle.acpi.specs.Walks.{ssdts_left};

    pub(crate) fn new(handler: &'h H, pointers: Pointers<'t>, accept: u32) -> Self
        requires { Allows (H.may handler.now)
            (kind_ranges (H.memory handler.now) (accepted accept (plain_kind SSDT)) (pointers_left pointers)) }
        ensures { ssdts_left H.memory result
            ≡ streams_by (H.memory handler.now) (accepted accept (plain_kind SSDT)) (pointers_left pointers.entry) }
    {
        SsdtIterator {
            handler,
            pointers,
            accept,
        }
    }
}

impl<H: Lender> Iterator for SsdtIterator<'_, '_, H> {
    ghost use Rattle.acpi.specs.Walks.{ssdts_left};

    type Item = AmlTable;

    ghost next_gives = { YieldsFirst (ssdts_left H.memory) };

    ghost remaining = { item_count (ssdts_left H.memory) };

    fn next(&mut self) -> Option<AmlTable> {
        next_found(self.handler, &mut self.pointers, self.accept)
    }
}

impl Asked for AmlTable {
    ghost ranges = { λ a m. table_ranges m (accepted a (plain_kind SSDT)) };
}

/// That of an SSDT.
impl Found for AmlTable {
    ghost use Rattle.acpi.specs.Lists as lists;

    ghost found = { λ a m p. result_ok (lists.stream_by m (accepted a (plain_kind SSDT)) p) };

    fn at<H: Lender>(handler: &H, address: u64, accept: u32) -> Option<AmlTable> {
        stream_at(handler, Signature::SSDT, address, accept).ok()
    }
}
