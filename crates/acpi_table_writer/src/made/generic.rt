//! Made by scripts/written of specs/Generic.antt.
ghost use Rattle.std.specs.Prelude.{◌≡◌};
ghost use Rattle.acpi_table_writer.specs.Generic.{address_fields};

use crate::fields::Field;
use acpi_base::address::GenericAddress;

/// The fields of a register.
#[tactic(auto, unfolding(crate::specs::Generic::address_fields))]
pub(crate) fn address_fields(g: &GenericAddress) -> [Field; 5]
    ensures { result ≡ address_fields g.now }
{
    [
        // 0: Address Space ID
        Field::U8(g.address_space.code()),
        // 1: Register Bit Width, 2: Register Bit Offset
        Field::U8(g.bit_width),
        Field::U8(g.bit_offset),
        // 3: Access Size, 4: Address
        Field::U8(g.access_size.code()),
        Field::U64(g.address),
    ]
}
