//! Made by scripts/shown: records for C, and what is written of C's, as definitions in specs/ have them.
ghost use Rattle.std.specs.Prelude.{◌≡◌};
ghost use Rattle.acpi_c_interrupts.specs.Model.{io_apic_record};

use crate::apics::records::IoApic;

pub(crate) fn io_apic_record(x: &acpi_base::model::IoApic) -> IoApic
    ensures { result ≡ io_apic_record x.now }
{
    IoApic {
        address: x.address,
        global_system_interrupt_base: x.global_system_interrupt_base,
        id: x.id,
        reserved: [0; 3],
    }
}
