//! The entries of a MADT that describe a RISC-V machine, one at a time.
ghost use Rattle.std.specs.Prelude.{◌≡◌, ◌-◌, ◌≤◌, length};
ghost use Rattle.acpi_base.specs.FromStd.{YieldsFirst, item_count};
ghost use Rattle.acpi_riscv.specs.Words.{entries_left, entries_of};

use crate::entry::RiscvEntry;
use acpi_base::PhysicalRecord;
use acpi_base::bytes::skip;
use acpi_base::entries::split_front;
use acpi_base::madt::{MADT_GRAMMAR, Madt};

/// The entries of types 0x18 to 0x1b of a MADT, in order (section 5.2.12). Entries of other types, and those with fewer
/// bytes than their type, are skipped by their length. It ends at the table's end, or where no entry begins.
#[derive(Drop)]
pub struct RiscvEntryIter<'a> {
    rest: &'a [u8],
}

impl<'a> RiscvEntryIter<'a> {
    /// The entries of a MADT's bytes: those after its 44 fixed bytes. It needs no handler.
    #[tactic(auto, using(crate::proofs::Lists::entries_few))]
    pub fn over(table: &'a [u8]) -> Self
        ensures items { entries_left result ≡ entries_of table.now }
        ensures few { length (entries_left result) ≤ length table.now - 44 }
    {
        RiscvEntryIter {
            rest: skip(table, Madt::MIN_LENGTH),
        }
    }
}

impl Iterator for RiscvEntryIter<'_> {
    type Item = RiscvEntry;

    ghost next_gives = { λ s r t. YieldsFirst (λ x. entries_left x) s r t };

    ghost remaining = { item_count (λ s. entries_left s) };

    fn next(&mut self) -> Option<RiscvEntry> {
        while let Some((entry, others)) = split_front(&MADT_GRAMMAR, self.rest) {
            self.rest = others;
            if let Some(found) = RiscvEntry::read(entry) {
                return Some(found);
            }
        }
        None
    }
}
