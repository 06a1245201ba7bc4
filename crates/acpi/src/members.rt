//! The members of the root table, valid or not.
ghost use Rattle.std.proofs.Props.{props};
ghost use Rattle.acpi_base.specs.FromStd.{YieldsFirst, item_count};
ghost use Rattle.std.specs.Prelude.{◌≡◌};
ghost use Rattle.acpi_base.specs.Words.{Allows, own_table_ranges};
ghost use Rattle.acpi.specs.Footprint.{header_ranges};
ghost use Rattle.acpi.specs.Pointers.{pointers_left};
ghost use Rattle.acpi.specs.Lists.{own_header_at};

use crate::pointers::Pointers;
use crate::walk::{Asked, next_asked};
use acpi_base::sdt::{SdtHeader, map_own_sdt};
use acpi_base::{AcpiResult, Lender};

/// A member of the root table: a pointer, and the header of the table there or why that is refused.
#[derive(Clone, Copy)]
pub struct TableMember {
    /// The pointer: the physical address that the root table lists.
    pub address: u64,
    /// The header of the table there (section 5.2.6), if that is valid under the signature that it has, or
    /// else the first error.
    pub header: AcpiResult<SdtHeader>,
}

impl Asked for TableMember {
    ghost ranges = { λ _ m. own_table_ranges m };
}

/// The members of the root table, one for each pointer, in order, as `AcpiTables::members` gives them. A
/// table that is listed twice comes twice.
#[derive(Drop)]
pub struct TableMembers<'t, 'h, H: Lender> {
    handler: &'h H,
    pointers: Pointers<'t>,
    ghost asked: { Allows (H.may handler.now)
        (header_ranges (H.memory handler.now) (pointers_left pointers)) } by { Prim.hlevel props },
}

impl<'t, 'h, H: Lender> TableMembers<'t, 'h, H> {
    ghost use Rattle.acpi.specs.Members.{members_of};
    ghost use Rattle.acpi.specs.Placed.{members_left};

    pub(crate) fn new(handler: &'h H, pointers: Pointers<'t>) -> Self
        requires { Allows (H.may handler.now)
            (header_ranges (H.memory handler.now) (pointers_left pointers)) }
        ensures { members_left H.memory result
            ≡ members_of (H.memory handler.now) (pointers_left pointers.entry) }
    {
        TableMembers { handler, pointers }
    }
}

impl<H: Lender> Iterator for TableMembers<'_, '_, H> {
    ghost use Rattle.acpi.specs.Placed.{members_left};

    type Item = TableMember;

    ghost next_gives = { YieldsFirst (members_left H.memory) };

    ghost remaining = { item_count (members_left H.memory) };

    fn next(&mut self) -> Option<TableMember> {
        let address = next_asked::<H, TableMember>(self.handler, &mut self.pointers, 0)?;
        let header = own_header(self.handler, address);
        Some(TableMember { address, header })
    }
}

/// The header of the table at an address, if that is valid under the signature that it has.
#[tactic(auto, unfolding(crate::specs::Lists::own_header_at))]
pub(crate) fn own_header<H: Lender>(handler: &H, address: u64) -> AcpiResult<SdtHeader>
    requires { Allows (H.may handler.now) (own_table_ranges (H.memory handler.now) address) }
    ensures { result ≡ own_header_at (H.memory handler.now) address }
{
    Ok(*map_own_sdt(handler, address)?.get())
}
