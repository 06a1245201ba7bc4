//! Why members were passed over in a lookup.
ghost use Rattle.std.proofs.Props.{props};
ghost use Rattle.acpi_base.specs.FromStd.{YieldsFirst, item_count};
ghost use Rattle.std.specs.Prelude.{◌≡◌, Err, IsOk, MatchOption};
ghost use Rattle.acpi_base.specs.Words.{Allows, accepted, table_ranges, table_at};
ghost use Rattle.acpi.specs.Footprint.{lookup_ranges};
ghost use Rattle.acpi.specs.Pointers.{pointers_left};

use crate::pointers::Pointers;
use crate::policy::map_accepted;
use crate::records::TableFault;
use acpi_base::{AcpiError, AcpiTable, Lender};
use std::marker::PhantomData;

/// The faults of the members that a lookup of `T` passes over, as `AcpiTables::faults` gives them: the
/// members before the first one that is accepted for `T`, or all members if none is, in the order of the root
/// table. A member with another signature (`SdtInvalidSignature`) is not a fault.
#[derive(Drop)]
pub struct TableFaults<'t, 'h, H: Lender, T: AcpiTable> {
    handler: &'h H,
    pointers: Pointers<'t>,
    accept: u32,
    sought: PhantomData<T>,
    ghost asked: { Allows (H.may handler.now) (lookup_ranges (H.memory handler.now)
        (accepted accept T.kind) (pointers_left pointers)) } by { Prim.hlevel props },
}

impl<'t, 'h, H: Lender, T: AcpiTable> TableFaults<'t, 'h, H, T> {
    ghost use Rattle.acpi.specs.Lists.{faults_of};
    ghost use Rattle.acpi.specs.Walks.{faults_left};

    pub(crate) fn new(handler: &'h H, pointers: Pointers<'t>, accept: u32) -> Self
        requires { Allows (H.may handler.now) (lookup_ranges (H.memory handler.now)
            (accepted accept T.kind) (pointers_left pointers)) }
        ensures { faults_left H.memory T.kind result
            ≡ faults_of (H.memory handler.now) (accepted accept T.kind) (pointers_left pointers.entry) }
    {
        TableFaults {
            handler,
            pointers,
            accept,
            sought: PhantomData,
        }
    }
}

impl<H: Lender, T: AcpiTable> Iterator for TableFaults<'_, '_, H, T> {
    ghost use Rattle.acpi.specs.Walks.{faults_left};

    type Item = TableFault;

    ghost next_gives = { YieldsFirst (faults_left H.memory T.kind) };

    ghost remaining = { item_count (faults_left H.memory T.kind) };

    fn next(&mut self) -> Option<TableFault> {
        // A pointer is passed only once its table is looked at: of those after a valid one, none may
        // be asked for.
        while let Some(address) = self.pointers.peek() {
            match refusal_at::<H, T>(self.handler, address, self.accept) {
                None => {
                    self.pointers.end();
                    return None;
                }
                Some(AcpiError::SdtInvalidSignature(_)) => self.pointers.pass(),
                Some(error) => {
                    self.pointers.pass();
                    return Some(TableFault { address, error });
                }
            }
        }
        None
    }
}

/// Why the table at an address is refused, or `None` if it is accepted for `T`.
#[inline(always)]
fn refusal_at<H: Lender, T: AcpiTable>(handler: &H, address: u64, accept: u32) -> Option<AcpiError>
    requires { Allows (H.may handler.now) (table_ranges (H.memory handler.now) (accepted accept T.kind) address) }
    ensures { let read = table_at (H.memory handler.now) (accepted accept T.kind) address in
        MatchOption result (IsOk read) (λ e. read ≡ Err e) }
{
    map_accepted::<H, T>(handler, address, accept).err()
}
