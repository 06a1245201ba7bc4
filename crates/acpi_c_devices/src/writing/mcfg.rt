//! The MCFG that is written for C, from the records as which C reads it.
ghost use Rattle.acpi_c_devices.specs.WrittenMcfg.{region_of};

mod shown;

use crate::records::PciRegion;
use acpi_base::mcfg::McfgEntry;
use acpi_table_writer::spelled::StandsFor;
use shown::region_of;

impl StandsFor<McfgEntry> for PciRegion {
    ghost meant = { region_of };

    fn item(&self) -> McfgEntry {
        region_of(self)
    }
}
