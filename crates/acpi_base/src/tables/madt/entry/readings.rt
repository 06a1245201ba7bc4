//! Made by scripts/readings: records, as their definitions in specs/ read them from bytes.
ghost use Rattle.acpi_base.specs.MadtEntries.{entry_header_at};

use super::EntryHeader;
use crate::PhysicalRecord;
use crate::bytes::u8_in;

impl PhysicalRecord for EntryHeader {
    const MIN_LENGTH: usize = 2;

    ghost MIN_LENGTH = { 2 };

    ghost reading = { entry_header_at };

    #[inline(always)]
    fn read(bytes: &[u8]) -> Self {
        EntryHeader {
            entry_type: u8_in(bytes, 0), // Type
            length: u8_in(bytes, 1), // Length
        }
    }
}
