//! The I/O Virtualization Reporting Structure (IVRS, section 5.2): which unit remaps a device's requests of memory, and
//! which memory has its own rules.

mod block;
mod blocks;
mod entry;
mod readings;

use acpi_base::sdt::SdtHeader;
pub use block::{Blocks, Ivhd, Ivmd, IvrsBlock, IvrsBlockIter, IvrsFields};
pub use blocks::{BestBlockIter, DeviceUnit, IvrsBlocks, MemoryIter};
pub use entry::{DeviceEntry, DeviceEntryIter, Entries, SpecialDevice};

/// The I/O Virtualization Reporting Structure (IVRS, section 5.2). Its blocks are after 48 fixed bytes; `IvrsBlocks`
/// reads them.
#[derive(Drop)]
pub struct Ivrs {
    /// The header that every table begins with.
    pub header: SdtHeader,
    /// IVinfo: what the units have in common, in bits that the specification names.
    pub info: u32,
}
