//! Physical memory from a file.
//!
//! A file is a sequence of records without a header, one after the other to its end. A record is
//! a start (8 bytes), a length (8 bytes), both little-endian, and that many bytes: the memory from
//! the address `start` on. A file without a record is an empty memory, and a record without bytes
//! maps nothing.
ghost use Rattle.acpi_base.specs.Words.{IsMemory, IsMemory-prop};
ghost use Rattle.acpi_image_reader.specs.Regions.{regions_of};

pub use crate::error::ImageError;
use crate::reader::records_of;
use crate::record::Record;
use crate::record_list::Records;
use acpi_base::{AcpiError, AcpiHandler, AcpiResult};
use std::alloc::Global;

/// The memory that a file encodes, mapped from the file's own bytes. Each record is a region.
#[derive(Drop)]
pub struct MemoryImage<'a> {
    records: Records<'a, Global>,
    ghost regions: { IsMemory (regions_of records.list.items) } by { IsMemory-prop _ },
}

impl<'a> MemoryImage<'a> {
    ghost use Rattle.std.specs.Prelude.{◌≡◌, ◌↔◌, IfOk, Ok};
    ghost use Rattle.acpi_base.specs.Words.{Memory};
    ghost use Rattle.acpi_image_reader.specs.Image.{GivesOrRunsOut, IsImage, records_in};
    ghost use Rattle.acpi_image_reader.specs.Held.{memory_of};

    /// The memory that a file encodes. It allocates only a list of the records and
    /// a map of their starts.
    ///
    /// Fails at the first record that fails, and of that one, in this order, with `Truncated` if fewer
    /// than 16 bytes are left or fewer than `length` after them, `EndTooLarge` if `start + length` is
    /// above 2^64 - 1, `Overlap` if it shares a byte with an earlier record, and `OutOfMemory`
    /// if memory runs out. Records that only adjoin share no byte, and one without bytes shares none.
    #[tactic(auto, using(crate::proofs::Images::image_found, crate::proofs::Images::image_only, crate::proofs::Images::image_law))]
    pub fn from_bytes(alloc: Global, bytes: &'a [u8]) -> Result<MemoryImage<'a>, ImageError>
        // The file is the records of the memory, and nothing else.
        ensures found { IfOk result (λ i. IsImage bytes.now (memory_of i)) }
        // A file that is the records of some memory is read as that memory, unless memory runs out.
        ensures only { (m : Memory) → IsMemory m → IsImage bytes.now m
            → GivesOrRunsOut bytes.now (λ i. memory_of i) result (Ok m) }
        // The memory, or the first error, is the one that is defined; memory runs out only after
        // a record that passed its checks.
        ensures exact { GivesOrRunsOut bytes.now (λ i. memory_of i) result (records_in bytes.now) }
        // What is defined is the one memory that the file encodes.
        ensures law { (m : Memory)
            → (records_in bytes.now ≡ Ok m) ↔ (IsImage bytes.now m × IsMemory m) }
    {
        let records = records_of(alloc, bytes)?;
        Ok(MemoryImage { records })
    }

    /// The regions of the memory, in the order of the file's records.
    pub fn records(&self) -> &[Record<'a>]
        ensures { regions_of result.now ≡ memory_of self.now }
    {
        &self.records.list
    }
}

/// Maps the file's bytes.
impl AcpiHandler for MemoryImage<'_> {
    ghost use Rattle.std.specs.Prelude.{◌≡◌, ◌<◌, ◌≤◌, length, Some, None, IfOk, IfErr};
    ghost use Rattle.acpi_base.specs.Words.{at, rest_from};
    ghost use Rattle.acpi_bytes.specs.declared.error.AcpiError.TheVariants.{MapFailed};
    ghost use Rattle.acpi_image_reader.specs.Held.{memory_of};

    ghost memory = { λ i. memory_of i };

    /// Maps all bytes from a physical address to the end of its record.
    ///
    /// Fails with `MapFailed` if no record has `size` bytes from that address on.
    #[tactic(auto, using(crate::proofs::Listing::at_rest, crate::proofs::Listing::at_none))]
    fn map_physical_region(&self, address: u64, size: usize) -> AcpiResult<&[u8]>
        requires { 0 < size }
        ensures enough { IfOk result (λ s. size ≤ length s.now) }
        ensures lent { IfOk result
            (λ s. at (memory_of self.now) address (length s.now) ≡ Some s.now) }
        // All the rest of the record is mapped, however little is requested.
        ensures whole { IfOk result (λ s. s.now ≡ rest_from (memory_of self.now) address) }
        ensures refused { IfErr result (λ e. at (memory_of self.now) address size ≡ None) }
        ensures name { IfErr result (λ e. e ≡ MapFailed) }
    {
        let rest = self.records.rest_at(address);
        if size <= rest.len() {
            Ok(rest)
        } else {
            Err(AcpiError::MapFailed)
        }
    }

    /// Does nothing: a file's bytes need no notice.
    fn unmap_physical_region(&self, _address: u64, _region_length: usize, _mapped_length: usize) {}

    ghost regions = { λ i. i.regions };
}
