//! A handler over several regions of physical memory that the caller has mapped.
ghost use Rattle.std.specs.Prelude.{◌≡◌, ◌<◌, ◌≤◌, [], length, Some, None, IfOk, IfErr, IfNone, IfSome};
ghost use Rattle.acpi_base.specs.Words.{IsMemory, IsMemory-prop, at, rest_from, Gives};
ghost use Rattle.acpi.specs.Types.{MapFailed};
ghost use Rattle.acpi.specs.Regions.{IsAscending, IsAscending-prop, check_regions, region_memory, regions_of};

use super::region::{MappedRegion, RegionError};
use acpi_base::{AcpiError, AcpiHandler, AcpiResult};

/// A handler that maps the bytes of several regions of physical memory, which a kernel or a boot loader
/// has mapped. Two regions that adjoin are still two: a range across their border is not mapped.
///
/// The caller keeps for each region the three things that `MappedRegion` names.
#[derive(Clone, Copy, Drop)]
pub struct MappedRegions<'k> {
    regions: &'k [MappedRegion<'k>],
    ghost ascending: { IsAscending (regions_of regions.now) } by { IsAscending-prop _ },
    ghost disjoint: { IsMemory (regions_of regions.now) } by { IsMemory-prop _ },
}

impl<'k> MappedRegions<'k> {
    ghost use Rattle.acpi.specs.Mapped.{regions_memory};
    ghost use Rattle.acpi.specs.Regions.{several_memory};

    /// A handler that maps the bytes of these regions. They are in the order of their addresses, each
    /// at or after the end of the one before it. There is no heap to sort them in: the caller sorts its
    /// list once.
    ///
    /// Fails at the first region that fails, and of that one, in this order, with `NotAscending` if it
    /// starts below the start of the one before it, and `Overlap` if it starts below that one's end.
    /// Regions that adjoin are accepted.
    #[tactic(auto, using(crate::proofs::Placing::is_memory))]
    pub fn new(regions: &'k [MappedRegion<'k>]) -> Result<Self, RegionError>
        ensures exact { Gives (λ r. regions_memory r) result (several_memory (regions_of regions.now)) }
    {
        check(regions)?;
        Ok(MappedRegions { regions })
    }
}

/// Checks that each region starts at the end of the one before it or above that.
fn check(regions: &[MappedRegion<'_>]) -> Result<(), RegionError>
    ensures exact { result ≡ check_regions (regions_of regions.now) }
    ensures ascending { IfOk result (λ _. IsAscending (regions_of regions.now)) }
{
    let mut start = 0;
    let mut end = 0;
    for region in regions {
        if region.start < start {
            return Err(RegionError::NotAscending);
        }
        if region.start < end {
            return Err(RegionError::Overlap);
        }
        start = region.start;
        end = region.start + region.bytes.len() as u64;
    }
    Ok(())
}

/// The one region that an address can be in: the last one that starts at it or below it, or else
/// the first one. It halves the list, and so takes as many steps as the logarithm of its length.
fn region_for<'k>(regions: &'k [MappedRegion<'k>], address: u64) -> Option<&'k MappedRegion<'k>>
    requires { IsAscending (regions_of regions.now) }
    ensures found { IfSome result (λ r. rest_from (regions_of regions.now) address
        ≡ rest_from (region_memory r.now) address) }
    ensures none { IfNone result (regions_of regions.now ≡ []) }
{
    let after = regions.partition_point(|region| region.start <= address);
    regions.get(after.saturating_sub(1))
}

/// Maps the regions' bytes.
impl AcpiHandler for MappedRegions<'_> {
    ghost use Rattle.acpi.specs.Mapped.{regions_memory};

    ghost memory = { λ r. regions_memory r };

    /// Maps all bytes from a physical address to the end of the region that it is in.
    ///
    /// Fails with `MapFailed` if no region has `size` bytes from that address on.
    #[tactic(auto, using(crate::proofs::Placing::at_same, crate::proofs::Placing::at_none))]
    fn map_physical_region(&self, address: u64, size: usize) -> AcpiResult<&[u8]>
        requires { 0 < size }
        ensures enough { IfOk result (λ s. size ≤ length s.now) }
        ensures lent { IfOk result (λ s. at (regions_memory self.now) address (length s.now) ≡ Some s.now) }
        // All the rest of the region is mapped, however little is requested.
        ensures whole { IfOk result (λ s. s.now ≡ rest_from (regions_memory self.now) address) }
        ensures refused { IfErr result (λ e. at (regions_memory self.now) address size ≡ None) }
        ensures name { IfErr result (λ e. e ≡ MapFailed) }
    {
        match region_for(self.regions, address) {
            Some(region) => region.map_physical_region(address, size),
            None => Err(AcpiError::MapFailed),
        }
    }

    /// Does nothing: what is mapped stays mapped.
    fn unmap_physical_region(&self, _address: u64, _region_length: usize, _mapped_length: usize) {}

    ghost regions = { λ r. r.disjoint };
}
