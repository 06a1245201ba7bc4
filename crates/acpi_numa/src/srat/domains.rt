//! The proximity domains of processors (sections 5.2.16.1, 5.2.16.3 and 5.2.16.4).

use super::entry::ProcessorId;
use super::walk::SratEntryIter;

/// The proximity domains in a SRAT's bytes (section 5.2.16). It needs no handler.
#[derive(Clone, Copy)]
pub struct Domains<'a> {
    table: &'a [u8],
}

impl<'a> Domains<'a> {
    ghost use Rattle.std.specs.Prelude.{◌≡◌, ◌-◌, ◌≤◌, length, false, None, filter_map};
    ghost use Rattle.acpi_base.specs.FromStd.{last_or};
    ghost use Rattle.acpi_numa.specs.Words.{cut_of, domain_in, domain_of_apic, domain_of_processor, entries_of, srat_bytes, entries_left, has_ended, rest_left};

    /// The proximity domains in a SRAT's bytes (section 5.2.16), from the table's first byte on. In fewer
    /// than 50 bytes there is no entry.
    pub fn over(table: &'a [u8]) -> Self
        ensures { srat_bytes result ≡ table.now }
    {
        Domains { table }
    }

    /// The entries of the SRAT, of types 0 to 6, in order (section 5.2.16).
    pub fn entries(&self) -> SratEntryIter<'a>
        ensures items { entries_left result ≡ entries_of (srat_bytes self.now) }
        ensures rest { rest_left result ≡ (cut_of (srat_bytes self.now)).1 }
        ensures begun { has_ended result ≡ false }
        ensures few { length (entries_left result) ≤ length (srat_bytes self.now) - 48 }
    {
        SratEntryIter::over(self.table)
    }

    /// Proximity Domain of the processor whose local APIC or x2APIC has this id: that of the last enabled
    /// entry of type 0 or 2 with this id (sections 5.2.16.1 and 5.2.16.3), or `None` if there is none.
    /// Entries after a malformed one don't count.
    pub fn domain_of_apic(&self, apic_id: u32) -> Option<u32>
        ensures { result ≡ domain_of_apic (srat_bytes self.now) apic_id }
    {
        self.domain_of(ProcessorId::Apic(apic_id))
    }

    /// Proximity Domain of the processor with this ACPI Processor UID, which has an interface to the GIC:
    /// that of the last enabled GICC Affinity Structure, type 3, with this UID (section 5.2.16.4), or `None`
    /// if there is none. Entries after a malformed one don't count.
    pub fn domain_of_processor(&self, uid: u32) -> Option<u32>
        ensures { result ≡ domain_of_processor (srat_bytes self.now) uid }
    {
        self.domain_of(ProcessorId::Uid(uid))
    }

    /// The domain of the last entry that has one for a processor, or `None` if there is none.
    fn domain_of(&self, processor: ProcessorId) -> Option<u32>
        ensures { result ≡ last_or None (filter_map (domain_in processor) (entries_of (srat_bytes self.now))) }
    {
        let mut found = None;
        let mut entries = self.entries();
        while let Some(entry) = entries.next() {
            if let Some(domain) = entry.domain_of(processor) {
                found = Some(domain);
            }
        }
        found
    }
}
