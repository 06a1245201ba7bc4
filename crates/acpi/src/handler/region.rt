//! A handler over one region of physical memory that the caller has mapped.
ghost use Rattle.std.specs.Prelude.{◌≡◌, ◌<◌, ◌≤◌, length, Some, None, IfOk, IfErr};
ghost use Rattle.acpi_base.specs.Words.{IsMemory, IsMemory-prop, at, rest_from, one_region, Gives};
ghost use Rattle.acpi.specs.Types.{MapFailed};

use acpi_base::{AcpiError, AcpiHandler, AcpiResult, AddressRange};
use std::fmt;

/// The errors of `MappedRegion::new` and `MappedRegions::new`: why regions are no memory.
#[derive(Clone, Copy, Debug, PartialEq, Eq)]
pub enum RegionError {
    /// A region's start and its length in bytes add up to more than 2^64 - 1.
    EndTooLarge,
    /// A region starts below the start of the one before it.
    NotAscending,
    /// A region starts below the end of the one before it.
    Overlap,
}

/// Prints the variant's name.
impl fmt::Display for RegionError {
    ghost use Rattle.acpi.specs.Regions.{region_error_text};

    ghost output = { λ e. Some (region_error_text e) };

    fn fmt<W: fmt::Write>(&self, f: &mut fmt::Formatter<W>) -> fmt::Result {
        f.write_str(match self {
            RegionError::EndTooLarge => "EndTooLarge",
            RegionError::NotAscending => "NotAscending",
            RegionError::Overlap => "Overlap",
        })
    }
}

/// A handler that maps the bytes of one region of physical memory, which a kernel or a boot loader has
/// mapped.
///
/// The caller keeps three things. The bytes are the physical memory's from `start` on. They stay
/// mapped as long as the handler is used, which the compiler checks by `'k`. And nobody writes to them
/// meanwhile, neither the firmware nor another processor. The first and the last can't be checked here.
#[derive(Clone, Copy, Drop)]
pub struct MappedRegion<'k> {
    pub(super) start: u64,
    pub(super) bytes: &'k [u8],
    ghost region: { IsMemory (one_region start bytes.now) } by { IsMemory-prop (one_region start bytes.now) },
}

impl<'k> MappedRegion<'k> {
    ghost use Rattle.acpi.specs.Regions.{one_memory, region_memory};

    /// A handler that maps these bytes, which are from the physical address `start` on.
    ///
    /// Fails with `EndTooLarge` if `start` and the number of bytes add up to more than 2^64 - 1.
    pub fn new(start: u64, bytes: &'k [u8]) -> Result<Self, RegionError>
        ensures exact { Gives (λ r. region_memory r) result (one_memory start bytes.now) }
    {
        if !AddressRange::new(start, bytes.len() as u64).fits() {
            return Err(RegionError::EndTooLarge);
        }
        Ok(MappedRegion { start, bytes })
    }
}

/// Maps the region's bytes.
impl AcpiHandler for MappedRegion<'_> {
    ghost use Rattle.acpi.specs.Regions.{region_memory};

    ghost memory = { λ r. region_memory r };

    /// Maps all bytes from a physical address to the end of the region.
    ///
    /// Fails with `MapFailed` if the region doesn't have `size` bytes from that address on.
    #[tactic(auto, using(acpi_bytes::proofs::LentRanges::one_region_lends, crate::proofs::Placing::rest_of_region))]
    fn map_physical_region(&self, address: u64, size: usize) -> AcpiResult<&[u8]>
        requires { 0 < size }
        ensures enough { IfOk result (λ s. size ≤ length s.now) }
        ensures lent { IfOk result (λ s. at (region_memory self.now) address (length s.now) ≡ Some s.now) }
        // All the rest of the region is mapped, however little is requested.
        ensures whole { IfOk result (λ s. s.now ≡ rest_from (region_memory self.now) address) }
        ensures refused { IfErr result (λ e. at (region_memory self.now) address size ≡ None) }
        ensures name { IfErr result (λ e. e ≡ MapFailed) }
    {
        if address < self.start {
            return Err(AcpiError::MapFailed);
        }
        let skipped = address - self.start;
        if skipped > self.bytes.len() as u64 {
            return Err(AcpiError::MapFailed);
        }
        let rest = &self.bytes[skipped as usize..];
        if size > rest.len() {
            return Err(AcpiError::MapFailed);
        }
        Ok(rest)
    }

    /// Does nothing: what is mapped stays mapped.
    fn unmap_physical_region(&self, _address: u64, _region_length: usize, _mapped_length: usize) {}

    ghost regions = { λ r. r.region };
}
