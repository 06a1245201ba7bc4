//! Made by scripts/shown: records for C, and what is written of C's, as definitions in specs/ have them.
ghost use Rattle.std.specs.Prelude.{◌≡◌};
ghost use Rattle.acpi_c_devices.specs.Pci.{pci_record};

use crate::records::PciRegion;
use acpi_base::mcfg::McfgEntry;

pub(crate) fn pci_record(e: &McfgEntry) -> PciRegion
    ensures { result ≡ pci_record e.now }
{
    PciRegion {
        base_address: e.base_address,
        segment_group: e.pci_segment_group,
        first_bus: e.bus_number_start,
        last_bus: e.bus_number_end,
        reserved: [0; 4],
    }
}
