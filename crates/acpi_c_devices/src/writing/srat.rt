//! The SRAT that is written for C (section 5.2.16), from its records of processors and of ranges of memory.
ghost use Rattle.std.specs.Prelude.{◌≡◌};
ghost use Rattle.acpi_c_devices.specs.WrittenSrat as srat;

mod shown;

use crate::numa::records::MemoryAffinity;
use crate::written_records::SratContents;
use acpi_numa::MemoryRange;
use acpi_table_writer::spelled::StandsFor;
use shown::range_of;

impl StandsFor<MemoryRange> for MemoryAffinity {
    ghost meant = { srat.range_of };

    fn item(&self) -> MemoryRange {
        range_of(self)
    }
}

/// What the SRAT is to contain, as the writer has it.
pub fn contents<'a>(given: &SratContents<'a>) -> acpi_table_writer::SratContents<'a, MemoryAffinity>
    ensures { result ≡ srat.contents given.now }
{
    acpi_table_writer::SratContents {
        apics: given.apics,
        giccs: given.giccs,
        ranges: given.ranges,
    }
}
