//! Generic addresses (GAS, section 5.2.3.2): registers, as tables give them.
ghost use Rattle.std.specs.Prelude.{◌≡◌};
ghost use Rattle.acpi_base.specs.Words.{is_named_space};
ghost use Rattle.acpi_table_writer.specs.Generic as bytes;

use crate::fields::{Field, Record};
use crate::made::generic::address_fields;
use acpi_base::address::{AccessSize, AddressSpace, GenericAddress};

/// A register, or one of zeros if there is none.
pub fn register_or_zeros(register: Option<GenericAddress>) -> GenericAddress
    ensures { result ≡ bytes.register_or_zeros register }
{
    match register {
        Some(given) => given,
        None => GenericAddress {
            address_space: AddressSpace::SystemMemory,
            bit_width: 0,
            bit_offset: 0,
            access_size: AccessSize::Undefined,
            address: 0,
        },
    }
}

/// Whether the code of a space is one of its own: an OEM's is 0xc0 or above.
pub fn is_named_space(space: AddressSpace) -> bool
    ensures { result ≡ is_named_space space }
{
    match space {
        AddressSpace::OemDefined(code) => code >= 0xc0,
        _ => true,
    }
}

/// Whether a register, if there is one, is at an address other than 0 of a space that its code names.
pub fn is_register(register: Option<GenericAddress>) -> bool
    ensures { result ≡ bytes.is_register register }
{
    match register {
        Some(given) => given.address != 0 && is_named_space(given.address_space),
        None => true,
    }
}

impl Record for Option<GenericAddress> {
    type Fields = [Field; 5];

    ghost fields_of = { λ o. bytes.address_fields (bytes.register_or_zeros o) };

    fn fields(&self) -> [Field; 5] {
        address_fields(&register_or_zeros(*self))
    }
}
