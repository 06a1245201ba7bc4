//! Made by scripts/shown: records for C, and what is written of C's, as definitions in specs/ have them.
ghost use Rattle.std.specs.Prelude.{◌≡◌};
ghost use Rattle.acpi_c_devices.specs.WrittenMcfg.{region_of};

use crate::records::PciRegion;
use acpi_base::mcfg::McfgEntry;

pub(crate) fn region_of(r: &PciRegion) -> McfgEntry
    ensures { result ≡ region_of r.now }
{
    McfgEntry {
        base_address: r.base_address,
        pci_segment_group: r.segment_group,
        bus_number_start: r.first_bus,
        bus_number_end: r.last_bus,
    }
}
