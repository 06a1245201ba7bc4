//! All accepted tables of a type.
ghost use Rattle.std.proofs.Props.{props};
ghost use Rattle.std.specs.Prelude.{◌≡◌};
ghost use Rattle.acpi_base.specs.FromStd.{YieldsFirstBy, item_count};
ghost use Rattle.acpi_base.specs.Words.{Allows, accepted, table_ranges, bytes_of, start_of};
ghost use Rattle.acpi.specs.Members.{kind_ranges};
ghost use Rattle.acpi.specs.Pointers.{pointers_left};

use crate::pointers::Pointers;
use crate::policy::map_accepted;
use crate::walk::{Asked, next_asked};
use acpi_base::{AcpiTable, Lender, PhysicalMapping};
use std::marker::PhantomData;

/// The members of the root table that are accepted for `T`, in its order, as `AcpiTables::find_tables` gives
/// them: each is a mapping of the table. A table that is listed twice comes twice.
#[derive(Drop)]
pub struct FoundTables<'t, 'h, H: Lender, T: AcpiTable> {
    handler: &'h H,
    pointers: Pointers<'t>,
    accept: u32,
    sought: PhantomData<T>,
    ghost asked: { Allows (H.may handler.now) (kind_ranges (H.memory handler.now)
        (accepted accept T.kind) (pointers_left pointers)) } by { Prim.hlevel props },
}

impl<'t, 'h, H: Lender, T: AcpiTable> FoundTables<'t, 'h, H, T> {
    ghost use Rattle.acpi.specs.Members.{tables_found};
    ghost use Rattle.acpi.specs.Placed.{found_left};

    pub(crate) fn new(handler: &'h H, pointers: Pointers<'t>, accept: u32) -> Self
        requires { Allows (H.may handler.now) (kind_ranges (H.memory handler.now)
            (accepted accept T.kind) (pointers_left pointers)) }
        ensures { found_left H.memory T.kind result
            ≡ tables_found (H.memory handler.now) (accepted accept T.kind) (pointers_left pointers.entry) }
    {
        FoundTables {
            handler,
            pointers,
            accept,
            sought: PhantomData,
        }
    }
}

impl<'h, H: Lender, T: AcpiTable> Iterator for FoundTables<'_, 'h, H, T> {
    ghost use Rattle.acpi.specs.Placed.{found_left};

    type Item = PhysicalMapping<'h, H, T>;

    // Each is seen as its address and its bytes.
    ghost next_gives = { YieldsFirstBy (λ m. (start_of m, bytes_of m)) (found_left H.memory T.kind) };

    ghost remaining = { item_count (found_left H.memory T.kind) };

    #[tactic(auto, unfolding(crate::specs::Members::found_at))]
    fn next(&mut self) -> Option<PhysicalMapping<'h, H, T>> {
        while let Some(address) = next_asked::<H, PhysicalMapping<'h, H, T>>(
            self.handler,
            &mut self.pointers,
            self.accept,
        ) {
            if let Ok(table) = map_accepted::<H, T>(self.handler, address, self.accept) {
                return Some(table);
            }
        }
        None
    }
}

/// A table that is accepted for `T`.
impl<H: Lender, T: AcpiTable> Asked for PhysicalMapping<'_, H, T> {
    ghost ranges = { λ a m. table_ranges m (accepted a T.kind) };
}
