//! The entries of a SRAT, one at a time.

use super::Srat;
use super::entry::{SRAT_GRAMMAR, SratEntry};
use acpi_base::PhysicalRecord;
use acpi_base::bytes::{field, skip};
use acpi_base::entries::split_front;

/// The entries of a SRAT, of types 0 to 6, in order (section 5.2.16). Entries of other types are skipped by
/// their length. It ends at the table's end, or where no entry begins: if one byte is left, or if the
/// length is under 2, under the least of its type (16, 40, 24, 18, 12, 32 and 32 for types 0 to 6), or past
/// the table's end.
#[derive(Drop)]
pub struct SratEntryIter<'a> {
    rest: &'a [u8],
    revision: u8,
    ended: bool,
}

impl<'a> SratEntryIter<'a> {
    ghost use Rattle.std.specs.Prelude.{◌≡◌, ◌-◌, ◌≤◌, length, false};
    ghost use Rattle.acpi_numa.specs.Words.{cut_of, entries_of, entries_left, has_ended, is_malformed, rest_left};

    /// The entries of a SRAT's bytes (section 5.2.16): those after its 48 fixed bytes. It needs no handler.
    #[tactic(auto, using(crate::proofs::Affinities::entries_few))]
    pub fn over(table: &'a [u8]) -> Self
        ensures items { entries_left result ≡ entries_of table.now }
        ensures rest { rest_left result ≡ (cut_of table.now).1 }
        ensures begun { has_ended result ≡ false }
        ensures few { length (entries_left result) ≤ length table.now - 48 }
    {
        SratEntryIter {
            rest: skip(table, Srat::MIN_LENGTH),
            revision: field(table, 8, 1) as u8, // Revision
            ended: false,
        }
    }

    /// Whether `next` has returned `None` before the table's end, where no entry begins (section 5.2.16).
    /// As long as `next` hasn't returned `None` it is false.
    pub fn ended_malformed(&self) -> bool
        ensures { result ≡ is_malformed self.now }
    {
        match self.rest {
            [] => false,
            _ => self.ended,
        }
    }
}

impl Iterator for SratEntryIter<'_> {
    ghost use Rattle.acpi_base.specs.FromStd.{YieldsFirst, item_count};
    ghost use Rattle.acpi_numa.specs.Words.{EndsAtRest, entries_left};

    type Item = SratEntry;

    ghost next_gives = { λ s r t. YieldsFirst (λ x. entries_left x) s r t × EndsAtRest s r t };

    ghost remaining = { item_count (λ s. entries_left s) };

    fn next(&mut self) -> Option<SratEntry> {
        while let Some((entry, others)) = split_front(&SRAT_GRAMMAR, self.rest) {
            self.rest = others;
            if let Some(found) = SratEntry::read(self.revision, entry) {
                return Some(found);
            }
        }
        self.ended = true;
        None
    }
}
