//! Made by scripts/shown: records for C, and what is written of C's, as definitions in specs/ have them.
ghost use Rattle.std.specs.Prelude.{◌≡◌};
ghost use Rattle.acpi_c_devices.specs.WrittenFacs.{facs_contents};

use crate::written_records::FacsContents;

pub fn facs_contents(c: &FacsContents) -> acpi_writer::FacsContents
    ensures { result ≡ facs_contents c.now }
{
    acpi_writer::FacsContents {
        hardware_signature: c.hardware_signature,
        waking_vector: c.waking_vector,
        x_waking_vector: c.waking_vector_64,
        supports_s4bios: c.supports_s4bios != 0,
        supports_64_bit_wake: c.supports_64_bit_wake != 0,
    }
}
