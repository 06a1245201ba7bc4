//! Made by scripts/shown: records for C, and what is written of C's, as definitions in specs/ have them.
ghost use Rattle.std.specs.Prelude.{◌≡◌};
ghost use Rattle.acpi_c_devices.specs.WrittenSpcr.{base, device};

use crate::fixed::records::Console;
use crate::records::Register;
use crate::writing::fadt::shown::register;
use acpi_base::address::GenericAddress;
use acpi_writer::SpcrPciDevice;

pub(crate) fn base(r: &Register) -> Option<GenericAddress>
    ensures { result ≡ base r.now }
{
    (r.present != 0).then_some(register(&r.at))
}

pub(crate) fn device(c: &Console) -> SpcrPciDevice
    ensures { result ≡ device c.now }
{
    SpcrPciDevice {
        device_id: c.pci_device_id,
        vendor_id: c.pci_vendor_id,
        bus: c.pci_bus,
        device: c.pci_device,
        function: c.pci_function,
        flags: c.pci_flags,
        segment: c.pci_segment,
    }
}
