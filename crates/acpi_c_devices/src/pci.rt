//! PCI configuration space.
ghost use Rattle.std.specs.Prelude.{◌≡◌, ◌≤◌, IfSome, Some, map};
ghost use Rattle.acpi.specs.Words.{region_of};
ghost use Rattle.acpi_c_lib.specs.Words.{Fills, lists_each};
ghost use Rattle.acpi_c_devices.specs.Words.{mcfg_entries_left, ecam_address, ecam_below, ecam_ranges_below, pci_regions_below, pci_record, ecam_record};

mod shown;

use crate::fixed::records::EcamRange;
use crate::records::PciRegion;
use acpi::AddressRange;
use acpi::mcfg::{Mcfg, McfgEntry, McfgEntryIter};
use acpi_c_lib::lists::{Listing, fill};
use acpi_c_lib::opening::first;
use acpi_c_lib::records::Source;
use acpi_c_lib::refusal::Refusal;
use acpi_c_lib::regions::Mapped;
use shown::pci_record;

/// Lists the regions of PCI configuration space of the first valid MCFG.
pub fn pci_regions(source: &Source<'_>, out: &mut [PciRegion]) -> Result<usize, Refusal>
    ensures { Fills result out.old out.new (pci_regions_below source.now) }
{
    let memory = Mapped::new(source.regions);
    let mcfg = first::<Mcfg>(&memory, source)?;
    Ok(fill(mcfg.entries(), &(), out))
}

impl Listing<(), PciRegion> for McfgEntryIter<'_> {
    ghost record_of = { λ known x. Some (pci_record x) };

    ghost left = { λ known s. map pci_record (mcfg_entries_left s) };

    ghost gives_first = { λ known. lists_each pci_record (λ s. mcfg_entries_left s) };

    fn record(_known: &(), entry: McfgEntry) -> Option<PciRegion>
        ensures { result ≡ Some (pci_record entry) }
    {
        Some(pci_record(&entry))
    }
}

/// The first region of a segment group that holds a bus.
#[tactic(auto, unfolding(acpi::specs::Pci::region_of))]
fn region_for(entries: McfgEntryIter<'_>, segment: u16, bus: u8) -> Option<McfgEntry>
    ensures found { result ≡ region_of (mcfg_entries_left entries.entry) segment bus }
    ensures holds { IfSome result (λ e. (e.bus_number_start ≤ bus) × (bus ≤ e.bus_number_end)) }
{
    for entry in entries {
        if entry.pci_segment_group == segment
            && entry.bus_number_start <= bus
            && bus <= entry.bus_number_end
        {
            return Some(entry);
        }
    }
    None
}

/// The physical address of a PCI function's configuration space, with a region's base as that of bus 0.
pub fn ecam_address(
    source: &Source<'_>,
    segment: u16,
    bus: u8,
    device: u8,
    function: u8,
) -> Result<u64, Refusal>
    ensures { result ≡ ecam_below source.now segment bus device function }
{
    let memory = Mapped::new(source.regions);
    let mcfg = first::<Mcfg>(&memory, source)?;
    let region = region_for(mcfg.entries(), segment, bus).ok_or(Refusal::NoSuchFunction)?;
    let address = region.ecam_address(bus, device, function);
    address.ok_or(Refusal::NoSuchFunction)
}

/// Lists the memory that each region of PCI configuration space takes, by the first valid MCFG.
pub fn ecam_ranges(source: &Source<'_>, out: &mut [EcamRange]) -> Result<usize, Refusal>
    ensures { Fills result out.old out.new (ecam_ranges_below source.now) }
{
    let memory = Mapped::new(source.regions);
    let mcfg = first::<Mcfg>(&memory, source)?;
    Ok(fill(mcfg.entries(), &(), out))
}

impl Listing<(), EcamRange> for McfgEntryIter<'_> {
    ghost record_of = { λ known x. Some (ecam_record x) };

    ghost left = { λ known s. map ecam_record (mcfg_entries_left s) };

    ghost gives_first = { λ known. lists_each ecam_record (λ s. mcfg_entries_left s) };

    fn record(_known: &(), entry: McfgEntry) -> Option<EcamRange>
        ensures { result ≡ Some (ecam_record entry) }
    {
        let found = entry.ecam_range();
        let none = AddressRange {
            address: 0,
            length: 0,
        };
        let range = found.unwrap_or(none);
        Some(EcamRange {
            address: range.address,
            length: range.length,
            segment_group: entry.pci_segment_group,
            present: found.is_some() as u8,
            reserved: [0; 5],
        })
    }
}
