//! The entries of a MADT, one at a time (section 5.2.12).
ghost use Rattle.std.specs.Prelude.{◌≡◌, ◌≤◌, ◌↔◌, length, slice_index, true, ◌*◌, ◌-◌, false, [], IfSome, IfNone};
ghost use Rattle.acpi_base.specs.FromStd.{YieldsFirst, item_count};
ghost use Rattle.acpi_base.specs.Words.{cut, IsEntry, after_one, with_entry, madt_grammar, cut_of, entries_of, madt_layout, BeginsDefined, entries_in, entries_left, has_ended, is_malformed, rest_left, EndsAtRest};

use super::Madt;
use super::entry::{MADT_GRAMMAR, MadtEntry};
use crate::bytes::skip;
use crate::entries::split_front;
use crate::memory::handler::PhysicalRecord;

/// The entries of a MADT, of types 0 to 0x10, in order (section 5.2.12). Entries of other types are skipped
/// by their length. It ends at the table's end, or where no entry begins: if one byte is left, or if the
/// length is under 2, under the least of its type, or past the table's end.
#[derive(Debug, Drop)]
pub struct MadtEntryIter<'a> {
    rest: &'a [u8],
    ended: bool,
}

impl<'a> MadtEntryIter<'a> {
    /// The entries of a MADT's bytes (section 5.2.12): those after its 44 fixed bytes. It needs no handler.
    #[tactic(auto, using(crate::proofs::EntryLists::entries_few, crate::proofs::EntryLists::cut_of_few))]
    pub fn over(table: &'a [u8]) -> Self
        ensures items { entries_left result ≡ entries_of table.now }
        ensures rest { rest_left result ≡ (cut_of table.now).1 }
        ensures begun { has_ended result ≡ false }
        ensures few { 2 * length (entries_left result) ≤ length table.now - 44 }
        // So few are all entries, those of other types among them, that a walk steps over.
        ensures all_few { 2 * length (cut_of table.now).0 ≤ length table.now - 44 }
    {
        MadtEntryIter {
            rest: skip(table, Madt::MIN_LENGTH),
            ended: false,
        }
    }

    /// The first entry of a defined type that is left, and the bytes after it, or `None` if none is left.
    /// Entries of other types are stepped over.
    #[inline(always)]
    fn split_defined(&mut self) -> Option<(&'a [u8], &'a [u8])>
        ensures items { entries_left self.new ≡ entries_left self.old }
        ensures rest { rest_left self.new ≡ rest_left self.old }
        ensures ended { has_ended self.new ≡ has_ended self.old }
        ensures found { IfSome result (λ x. cut madt_grammar self.new.rest.now
            ≡ with_entry x.0.now (cut (after_one madt_grammar) x.1.now)) }
        ensures entry { IfSome result (λ x. IsEntry madt_layout x.0.now) }
        ensures defined { BeginsDefined (cut madt_grammar self.new.rest.now).0 }
        ensures none { IfNone result (cut madt_grammar self.new.rest.now ≡ ([], self.new.rest.now)) }
    {
        // Most entries come the first way. Each way has a split of its own, next to its test of the type: joined before
        // the split they would take longer, and `read` would have to test for other types.
        if begins_defined(self.rest) {
            return split_front(&MADT_GRAMMAR, self.rest);
        }
        self.rest = past_others(self.rest);
        if begins_defined(self.rest) {
            return split_front(&MADT_GRAMMAR, self.rest);
        }
        None
    }

    /// Whether `next` has answered `None` before the table's end, where no entry begins (section 5.2.12).
    /// As long as `next` hasn't answered `None` it is false.
    pub fn ended_malformed(&self) -> bool
        ensures { result ≡ is_malformed self.now }
    {
        match self.rest {
            [] => false,
            _ => self.ended,
        }
    }
}

impl Iterator for MadtEntryIter<'_> {
    type Item = MadtEntry;

    ghost next_gives = { λ s r t. YieldsFirst (λ x. entries_left x) s r t × EndsAtRest s r t };

    ghost remaining = { item_count (λ s. entries_left s) };

    #[inline(always)]
    #[tactic(auto, using(crate::proofs::EntryLists::defined_first))]
    fn next(&mut self) -> Option<MadtEntry> {
        match self.split_defined() {
            Some((entry, others)) => {
                self.rest = others;
                Some(MadtEntry::read(entry))
            }
            None => {
                self.ended = true;
                None
            }
        }
    }
}

/// Whether bytes begin with the type and the length of an entry, and the type is a defined one.
#[inline(always)]
fn begins_defined(bytes: &[u8]) -> bool
    ensures exact { (result ≡ true) ↔ ((2 ≤ length bytes.now) × (slice_index bytes.now 0 ≤ 16)) }
    ensures defined { (result ≡ true) → BeginsDefined (cut madt_grammar bytes.now).0 }
    // Bytes whose first entry is of a defined type, if there is one, begin with none.
    ensures none { (result ≡ false) → BeginsDefined (cut madt_grammar bytes.now).0
        → cut madt_grammar bytes.now ≡ ([], bytes.now) }
{
    bytes.len() >= 2 && bytes[0] as usize <= MadtEntry::LAST_TYPE
}

/// The bytes from the first entry on whose type is defined. Entries of other types are rare, so this is
/// out of line: `next` then has no loop, and what it reads can stay in registers.
#[inline(never)]
fn past_others(bytes: &[u8]) -> &[u8]
    ensures items { entries_in result.now ≡ entries_in bytes.now }
    ensures rest { (cut madt_grammar result.now).1 ≡ (cut madt_grammar bytes.now).1 }
    ensures defined { BeginsDefined (cut madt_grammar result.now).0 }
{
    let mut rest = bytes;
    while let Some((entry, others)) = split_front(&MADT_GRAMMAR, rest) {
        if entry[0] as usize <= MadtEntry::LAST_TYPE {
            return rest;
        }
        rest = others;
    }
    rest
}
