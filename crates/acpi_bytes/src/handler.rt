//! Handlers and lenders of physical memory, and records that are read from it.
ghost use Rattle.std.specs.Prelude.{◌≡◌, ℕ, ◌<◌, ◌≤◌, Bool, true, List, length, Some, None, IfOk, IfErr};
ghost use Rattle.acpi_bytes.specs.Memory.{Memory, IsMemory, at};
ghost use Rattle.acpi_bytes.specs.Types.{MapFailed};

use crate::bytes::field;
use crate::error::{AcpiError, AcpiResult};

/// Maps physical memory, in the kernel or the boot loader that implements this.
///
/// `memory` is what there is: regions of bytes of which no two share an address, each ending below
/// 2^64. Two regions that adjoin are still two: a range across their border is not mapped.
///
/// Bytes must not change while they are mapped: a hypervisor that reads the tables of a running guest
/// copies the guest's memory first. What is mapped bounds the time of the calls too: a table's length
/// and a candidate RSDP's length are believed as far as that many bytes are mapped.
pub trait AcpiHandler {
    ghost memory: { Self → Memory };

    /// Maps the bytes from a physical address on, at least `size` of them, all from one region.
    ///
    /// Fails with `MapFailed` exactly if the `size` bytes from that address on aren't all inside one
    /// region.
    fn map_physical_region(&self, address: u64, size: usize) -> AcpiResult<&[u8]>
        requires { 0 < size }
        ensures enough { IfOk result (λ s. size ≤ length s.now) }
        ensures lent { IfOk result (λ s. at (memory self.now) address (length s.now) ≡ Some s.now) }
        ensures refused { IfErr result (λ e. at (memory self.now) address size ≡ None) }
        ensures name { IfErr result (λ e. e ≡ MapFailed) };

    /// A notice: the `mapped_length` bytes that were mapped from `address` on, of which a mapping showed the
    /// first `region_length`, are no longer read.
    fn unmap_physical_region(&self, address: u64, region_length: usize, mapped_length: usize)
        requires { region_length ≤ mapped_length };

    ghost regions: { (h : Self) → IsMemory (memory h) };
}

/// Maps physical memory, as `AcpiHandler` does, if by `may` the range may be requested.
/// Each `AcpiHandler` is a lender of which any range may be requested.
pub trait Lender {
    ghost memory: { Self → Memory };

    // Whether this number of bytes at an address may be requested.
    ghost may: { Self → ℕ → ℕ → Bool };

    /// Maps the bytes from a physical address on, at least `size` of them, all from one region, as
    /// `AcpiHandler::map_physical_region` does. Only ranges that `may` allows may be requested.
    ///
    /// Fails with `MapFailed` exactly if the `size` bytes from that address on aren't all inside one
    /// region.
    fn lend(&self, address: u64, size: usize) -> AcpiResult<&[u8]>
        requires some { 0 < size }
        requires asked { may self.now address size ≡ true }
        ensures enough { IfOk result (λ s. size ≤ length s.now) }
        ensures lent { IfOk result (λ s. at (memory self.now) address (length s.now) ≡ Some s.now) }
        ensures refused { IfErr result (λ e. at (memory self.now) address size ≡ None) }
        ensures name { IfErr result (λ e. e ≡ MapFailed) };

    /// A notice, as `AcpiHandler::unmap_physical_region`: the `mapped_length` bytes that were mapped from
    /// `address` on, of which a mapping showed the first `region_length`, are no longer read.
    fn end_loan(&self, address: u64, region_length: usize, mapped_length: usize)
        requires { region_length ≤ mapped_length };

    ghost regions: { (h : Self) → IsMemory (memory h) };
}

impl<H: AcpiHandler> Lender for H {
    ghost memory = { λ h. H.memory h };

    ghost may = { λ _ _ _. true };

    fn lend(&self, address: u64, size: usize) -> AcpiResult<&[u8]> {
        let lent = self.map_physical_region(address, size)?;
        // No handler that is proved maps fewer.
        if lent.len() < size {
            return Err(AcpiError::MapFailed);
        }
        Ok(lent)
    }

    fn end_loan(&self, address: u64, region_length: usize, mapped_length: usize) {
        self.unmap_physical_region(address, region_length, mapped_length);
    }

    ghost regions = { λ h. H.regions h };
}

/// A record that is read from bytes of a table: a table, an entry, or a number.
pub trait PhysicalRecord: Drop {
    /// The least number of bytes that the record is read from.
    const MIN_LENGTH: usize;

    ghost MIN_LENGTH: { ℕ };

    // What the bytes mean.
    ghost reading: { List ℕ → Self };

    /// The record that bytes mean, of which there are at least `MIN_LENGTH`.
    fn read(bytes: &[u8]) -> Self
        requires { MIN_LENGTH ≤ length bytes.now }
        ensures { result ≡ reading bytes.now };
}

impl PhysicalRecord for u16 {
    ghost use Rattle.acpi_bytes.specs.Bytes.{field_of};

    const MIN_LENGTH: usize = 2;

    ghost MIN_LENGTH = { 2 };

    ghost reading = { λ b. field_of b 0 2 };

    fn read(bytes: &[u8]) -> u16 {
        field(bytes, 0, 2) as u16
    }
}

impl PhysicalRecord for u64 {
    ghost use Rattle.acpi_bytes.specs.Bytes.{field_of};

    const MIN_LENGTH: usize = 8;

    ghost MIN_LENGTH = { 8 };

    ghost reading = { λ b. field_of b 0 8 };

    fn read(bytes: &[u8]) -> u64 {
        field(bytes, 0, 8)
    }
}
