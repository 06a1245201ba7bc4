//! The FADT that is written for C (section 5.2.9), from the record as which C reads it.
ghost use Rattle.std.specs.Prelude.{◌≡◌};
ghost use Rattle.acpi_c_devices.specs.WrittenFadt as written;

pub(crate) mod shown;

use crate::fixed::records::{FixedHardware, GpeBlock};
use crate::records;
use crate::records::Register;
use acpi_base::address::{AccessSize, AddressSpace};
use acpi_base::bytes::has_bit;
pub use shown::contents;

/// The space of a code. That of a reserved code isn't looked at.
fn space(code: u8) -> AddressSpace
    ensures { result ≡ written.space code }
{
    AddressSpace::try_from(code).unwrap_or(AddressSpace::SystemMemory)
}

fn is_space(code: u8) -> bool
    ensures { result ≡ written.is_space code }
{
    AddressSpace::try_from(code).is_ok()
}

/// Whether a register, or a general-purpose event block, is there: it isn't at address 0.
fn is_there(present: u8, address: u64) -> bool
    ensures { result ≡ written.is_there present address }
{
    present != 0 && address != 0
}

/// Whether the codes of a register are none that are reserved.
pub(crate) fn has_codes_at(at: records::GenericAddress) -> bool
    ensures { result ≡ written.has_codes_at at }
{
    is_space(at.space) && AccessSize::try_from(at.access_size).is_ok()
}

/// Whether `present` is 0 or 1, and a register that is there has no code that is reserved.
fn has_optional_codes(given: Register) -> bool
    ensures { result ≡ written.has_optional_codes given }
{
    given.present <= 1 && (!is_there(given.present, given.at.address) || has_codes_at(given.at))
}

/// Whether `present` is 0 or 1, and a general-purpose event block that is there has no address space that is reserved.
fn has_gpe_codes(given: GpeBlock) -> bool
    ensures { result ≡ written.has_gpe_codes given }
{
    given.present <= 1 && (!is_there(given.present, given.address) || is_space(given.space))
}

/// Whether no block of fixed hardware has a code that is reserved.
fn has_block_codes(h: &FixedHardware) -> bool
    ensures { result ≡ written.has_block_codes h.now }
{
    has_codes_at(h.pm1a_event.at)
        && has_codes_at(h.pm1a_control.at)
        && has_optional_codes(h.pm1b_event)
        && has_optional_codes(h.pm1b_control)
        && has_optional_codes(h.pm2_control)
        && has_optional_codes(h.pm_timer)
        && has_gpe_codes(h.gpe0_block)
        && has_gpe_codes(h.gpe1_block)
}

/// Whether no register that is written has a code that is reserved.
pub fn has_codes(h: &FixedHardware) -> bool
    ensures { result ≡ written.has_codes h.now }
{
    (has_bit(h.flags as u64, 20) || has_block_codes(h))
        && (!has_bit(h.flags as u64, 10) || has_codes_at(h.reset.at))
        && has_optional_codes(h.sleep_control)
        && has_optional_codes(h.sleep_status)
}
