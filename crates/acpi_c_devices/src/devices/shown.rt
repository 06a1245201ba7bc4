//! Made by scripts/shown: records for C, and what is written of C's, as definitions in specs/ have them.
ghost use Rattle.std.specs.Prelude.{◌≡◌};
ghost use Rattle.acpi_c_devices.specs.Devices.{generic_record};

use crate::records::GenericAddress;

pub(crate) fn generic_record(a: &acpi_base::address::GenericAddress) -> GenericAddress
    ensures { result ≡ generic_record a.now }
{
    GenericAddress {
        address: a.address,
        space: a.address_space.code(),
        bit_width: a.bit_width,
        bit_offset: a.bit_offset,
        access_size: a.access_size.code(),
        reserved: [0; 4],
    }
}
