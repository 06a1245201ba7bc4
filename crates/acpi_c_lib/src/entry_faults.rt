//! The entries of a table at fault, each at its address, and the malformed front that ends them.
ghost use Rattle.std.specs.Prelude.{◌≡◌};
ghost use Rattle.acpi_c_lib.specs.Words.{entry_fault};

use crate::refusal::Refusal;

/// An entry at fault, or the malformed front that ends a table's entries.
#[repr(C)]
#[derive(Clone, Copy)]
pub struct EntryFault {
    pub address: u64,
    pub status: u32,
    pub entry_type: u16,
    pub reserved: [u8; 2],
}

/// An entry of a type, at an address, with its error.
pub fn entry_fault(address: u64, entry_type: u16, error: Refusal) -> EntryFault
    ensures { result ≡ entry_fault address entry_type error }
{
    EntryFault {
        address,
        entry_type,
        status: error.code(),
        reserved: [0; 2],
    }
}
