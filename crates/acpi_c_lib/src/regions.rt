//! Physical memory, as a kernel has it mapped.
ghost use Rattle.std.specs.Prelude.{◌≡◌, length, IfOk, ◌-◌, IfSome, IfNone, Some, None, drop, true, false, ◌^◌, ◌<◌, ◌≤◌, IfErr, option_map};
ghost use Rattle.acpi_base.specs.Words.{IsBytes, IsMemory, IsMemory-prop, at, rest_from, end_of, lies_in, Gives};
ghost use Rattle.acpi.specs.Types.{MapFailed};
ghost use Rattle.acpi.specs.Words.{IsAscending, IsAscending-prop};
ghost use Rattle.acpi_c_lib.specs.Located.{LiesOnlyAt, located, spot_from};
ghost use Rattle.acpi_c_lib.specs.Regions.{check_regions, memory_of, region_of, memory_in};
ghost use Rattle.acpi_c_lib.specs.Types.{RegionTooHigh};

use crate::records::Place;
use crate::refusal::Refusal;
use acpi_base::{AcpiError, AcpiHandler, AcpiResult};

/// A range of physical memory, and the bytes that it is mapped at.
#[repr(C)]
#[derive(Clone, Copy)]
pub struct Region<'k> {
    /// The physical address of the first byte.
    pub address: u64,
    /// The bytes: for C a pointer, which is not null, and then how many there are.
    pub bytes: &'k [u8],
}

impl<'k> Region<'k> {
    /// The address after its last byte.
    ///
    /// Fails with `RegionTooHigh` if that is 2^64 or above.
    fn end(self) -> Result<u64, Refusal>
        ensures end { IfOk result (λ e. e ≡ end_of (region_of self.entry)) }
        ensures low { IfOk result (λ e. end_of (region_of self.entry) < 2 ^ 64) }
        ensures bytes { IfOk result (λ e. IsBytes self.entry.bytes.now) }
        ensures refused { IfErr result (λ e. e ≡ RegionTooHigh) }
        ensures high { IfErr result (λ e. 2 ^ 64 ≤ end_of (region_of self.entry)) }
    {
        let length = length_of(self.bytes);
        if length > u64::MAX - self.address {
            return Err(Refusal::RegionTooHigh);
        }
        Ok(self.address + length)
    }

    /// The bytes from an address on, if it is in this region.
    #[tactic(auto, using(std::proofs::lemmas::Bool::Decides::nat_tests))]
    fn rest(&self, address: u64) -> Option<&'k [u8]>
        ensures inside { IfSome result (λ s. lies_in (region_of self.now) address ≡ true) }
        ensures bytes { IfSome result (λ s. s.now ≡ drop (address - self.now.address) self.now.bytes.now) }
        ensures outside { IfNone result (lies_in (region_of self.now) address ≡ false) }
    {
        if address < self.address {
            return None;
        }
        let skipped = address - self.address;
        if skipped < length_of(self.bytes) {
            Some(&self.bytes[skipped as usize..])
        } else {
            None
        }
    }
}

/// How many bytes there are.
fn length_of(bytes: &[u8]) -> u64
    ensures length { result ≡ length bytes.now }
    ensures bytes { IsBytes bytes.now }
{
    bytes.len() as u64
}

/// The index of the one region that an address can be in: the last one that begins at it or below it. The list is
/// halved, so it takes as many steps as the logarithm of its length.
fn index_for(regions: &[Region<'_>], address: u64) -> usize
    requires { IsAscending (memory_of regions.now) }
    ensures { LiesOnlyAt regions.now address result }
{
    let after = regions.partition_point(|region| region.address <= address);
    after.saturating_sub(1)
}

/// The place of an address, and the bytes from there to the end of the region.
#[tactic(auto, using(crate::proofs::Ascending::spot_past, crate::proofs::Ascending::spot_there))]
fn spot<'k>(regions: &[Region<'k>], address: u64) -> Option<(Place, &'k [u8])>
    requires { IsAscending (memory_of regions.now) }
    ensures { option_map (λ s. (s.0, s.1.now)) result ≡ spot_from 0 (memory_of regions.now) address }
{
    let index = index_for(regions, address);
    let region = regions.get(index)?;
    let rest = region.rest(address)?;
    let place = Place {
        region: index,
        offset: (address - region.address) as usize,
    };
    Some((place, rest))
}

/// The bytes from an address to the end of the region that it is in, or none.
#[tactic(auto, using(crate::proofs::Ascending::rest_seen))]
fn rest_at<'k>(regions: &[Region<'k>], address: u64) -> &'k [u8]
    requires { IsAscending (memory_of regions.now) }
    ensures { result.now ≡ rest_from (memory_of regions.now) address }
{
    match spot(regions, address) {
        Some((_, rest)) => rest,
        None => &[],
    }
}

/// The place of `length` bytes from an address.
///
/// Fails as `check` does, and then with `MapFailed` if the address is in no region, or the bytes reach past the end of
/// the one that it is in.
pub fn locate(regions: &[Region<'_>], address: u64, length: u64) -> Result<Place, Refusal>
    ensures { result ≡ located regions.now address length }
{
    check(regions)?;
    match spot(regions, address) {
        Some((place, rest)) if length <= rest.len() as u64 => Ok(place),
        _ => Err(Refusal::Acpi(AcpiError::MapFailed)),
    }
}

/// Checks that regions are in ascending order, and share no address.
///
/// Fails for the first region at fault, with `RegionsNotAscending` if it begins below the end of the one before it, or
/// else with `RegionTooHigh` if the address after its last byte is 2^64 or above.
fn check(regions: &[Region<'_>]) -> Result<(), Refusal>
    ensures exact { result ≡ check_regions (memory_of regions.now) }
    ensures ascending { IfOk result (λ _. IsAscending (memory_of regions.now)) }
    ensures memory { IfOk result (λ _. IsMemory (memory_of regions.now)) }
{
    let mut low = 0;
    for region in regions {
        if region.address < low {
            return Err(Refusal::RegionsNotAscending);
        }
        low = region.end()?;
    }
    Ok(())
}

/// Regions that are a memory.
#[derive(Clone, Copy, Drop)]
pub struct Mapped<'k> {
    regions: &'k [Region<'k>],
    ghost ascending: { IsAscending (memory_of regions.now) } by { IsAscending-prop _ },
    ghost disjoint: { IsMemory (memory_of regions.now) } by { IsMemory-prop _ },
}

impl<'k> Mapped<'k> {
    ghost use Rattle.acpi_c_lib.specs.Held.{mapped_memory};

    /// The memory of these regions.
    ///
    /// Fails as `check` does.
    pub fn new(regions: &'k [Region<'k>]) -> Result<Mapped<'k>, Refusal>
        ensures { Gives (λ m. mapped_memory m) result (memory_in regions.now) }
    {
        check(regions)?;
        Ok(Mapped { regions })
    }
}

/// Maps what is in one of the regions.
impl AcpiHandler for Mapped<'_> {
    ghost use Rattle.acpi_c_lib.specs.Held.{mapped_memory};

    ghost memory = { λ m. mapped_memory m };

    /// Maps all bytes from a physical address to the end of the region.
    ///
    /// Fails with `MapFailed` if no region has `size` bytes from that address on.
    #[tactic(auto, using(crate::proofs::Ascending::at_rest, crate::proofs::Ascending::at_none))]
    fn map_physical_region(&self, address: u64, size: usize) -> AcpiResult<&[u8]>
        requires { 0 < size }
        ensures enough { IfOk result (λ s. size ≤ length s.now) }
        ensures lent { IfOk result (λ s. at (mapped_memory self.now) address (length s.now) ≡ Some s.now) }
        // All the rest of the region is mapped, however little is requested.
        ensures whole { IfOk result (λ s. s.now ≡ rest_from (mapped_memory self.now) address) }
        ensures refused { IfErr result (λ e. at (mapped_memory self.now) address size ≡ None) }
        ensures name { IfErr result (λ e. e ≡ MapFailed) }
    {
        let rest = rest_at(self.regions, address);
        if size <= rest.len() {
            Ok(rest)
        } else {
            Err(AcpiError::MapFailed)
        }
    }

    fn unmap_physical_region(&self, _address: u64, _region_length: usize, _mapped_length: usize) {}

    ghost regions = { λ m. m.disjoint };
}
