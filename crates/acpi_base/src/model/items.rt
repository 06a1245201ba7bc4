//! What the entries of a MADT say, one after the other, with no memory for a list.
ghost use Rattle.std.specs.Prelude.{◌≡◌, ◌-◌, ◌*◌, ◌≤◌, length, ◌+◌};
ghost use Rattle.acpi_base.specs.FromStd.{YieldsFirst, item_count};
ghost use Rattle.acpi_base.specs.Words.{items_left, model_counts, items_of, bytes_of};

use super::counts::Counts;
use super::item::MadtItem;
use crate::bytes::skip;
use crate::entries::split_front;
use crate::error::AcpiResult;
use crate::memory::handler::{Lender, PhysicalRecord};
use crate::memory::mapping::PhysicalMapping;
use crate::tables::madt::{MADT_GRAMMAR, Madt};

/// What the entries of a MADT say, in order. An entry that is refused, or whose type isn't defined,
/// says nothing. It ends at the table's end, or if no entry begins there.
#[derive(Drop)]
pub struct MadtItems<'a> {
    rest: &'a [u8],
}

impl<'a> MadtItems<'a> {
    /// What the entries of a MADT's bytes say.
    #[tactic(auto, using(crate::proofs::EntryLists::said_items, crate::proofs::EntryLists::items_few))]
    fn over(table: &'a [u8]) -> Self
        ensures items { items_left result ≡ items_of table.now }
        ensures few { 2 * length (items_left result) ≤ length table.now - 44 }
    {
        MadtItems {
            rest: skip(table, Madt::MIN_LENGTH),
        }
    }
}

impl<'h, H: Lender> PhysicalMapping<'h, H, Madt> {
    /// What the entries say, in order, for a caller with no heap: `parse_interrupt_model_in` sorts
    /// the same items into lists. `model_counts` fails first, if an entry is malformed.
    pub fn items(&self) -> MadtItems<'_>
        ensures items { items_left result ≡ items_of (bytes_of self.now) }
        ensures few { 2 * length (items_left result) + 44 ≤ length (bytes_of self.now) }
    {
        MadtItems::over(self.bytes())
    }

    /// How many items of each sort the entries say, and whether any is of a model of APICs.
    ///
    /// Fails as `parse_interrupt_model_in`, with `InvalidMadt` for the first entry that is at fault.
    pub fn model_counts(&self) -> AcpiResult<Counts>
        ensures { result ≡ model_counts (bytes_of self.now) }
    {
        Counts::of(self.bytes())
    }
}

impl Iterator for MadtItems<'_> {
    type Item = MadtItem;

    ghost next_gives = { YieldsFirst (λ s. items_left s) };

    ghost remaining = { item_count (λ s. items_left s) };

    #[inline(always)]
    fn next(&mut self) -> Option<MadtItem> {
        while let Some((entry, others)) = split_front(&MADT_GRAMMAR, self.rest) {
            self.rest = others;
            if let Some(Ok(item)) = MadtItem::of_entry(entry) {
                return Some(item);
            }
        }
        None
    }
}
