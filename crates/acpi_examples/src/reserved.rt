//! A boot loader that reserves the memory of the tables.

use acpi::{AcpiHandler, AcpiTables};

/// A boot loader's map of memory.
pub trait MemoryMap {
    /// Keeps a range of physical memory, `length` bytes from an address on, from being used for anything else.
    fn reserve(&mut self, address: u64, length: u64);
}

/// Reserves the memory that the tables take.
pub fn reserve_tables<H: AcpiHandler, M: MemoryMap>(tables: &AcpiTables<'_, H>, map: &mut M) {
    for range in tables.ranges() {
        map.reserve(range.address, range.length);
    }
}
