//! The Firmware ACPI Control Structure (FACS, section 5.2.10).
ghost use Rattle.std.specs.Prelude.{◌≡◌};
ghost use Rattle.acpi_c_lib.specs.Words.{facs_below, facs_in};

use crate::opening::{find_fadt, open};
use crate::records::{Facs, Source};
use crate::refusal::Refusal;
use crate::regions::Mapped;
use acpi::sdt::{SdtHeader, Signature};
use acpi::{AcpiError, AcpiHandler, AcpiResult, PhysicalMapping, PhysicalRecord, facs_length};
use acpi_base::bytes::{field_in, u8_in, u32_in};

/// The FACS that the first valid FADT points to.
pub fn facs(source: &Source<'_>) -> Result<Facs, Refusal>
    ensures { result ≡ facs_below source.now }
{
    let memory = Mapped::new(source.regions)?;
    let tables = open(&memory, source)?;
    let fadt = find_fadt(&tables)?;
    let missing = AcpiError::TableMissing(Signature::FACS);
    let address = fadt.facs_address().ok().ok_or(missing)?;
    let facs = facs_at(&memory, address)?;
    Ok(facs)
}

/// The FACS at an address.
///
/// Fails, in this order, with `MapFailed` if 36 bytes aren't mapped, as `facs_length` does, and with `MapFailed` if
/// not all bytes of its Length are mapped.
#[tactic(auto, unfolding(acpi::specs::Places::facs_at))]
pub(crate) fn facs_at<H: AcpiHandler>(handler: &H, address: u64) -> AcpiResult<Facs>
    ensures { result ≡ facs_in (H.memory handler.now) address }
{
    let head = PhysicalMapping::<'_, H, SdtHeader>::map(handler, address, SdtHeader::MIN_LENGTH)?;
    let length = facs_length(head.signature, head.length)?;
    PhysicalMapping::<'_, H, SdtHeader>::map(handler, address, length as usize)?;
    let bytes = head.bytes();
    Ok(Facs {
        address,
        waking_vector_64: field_in(bytes, 24, 8), // X_Firmware_Waking_Vector
        length,
        hardware_signature: u32_in(bytes, 8), // Hardware Signature
        waking_vector: u32_in(bytes, 12), // Firmware_Waking_Vector
        flags: u32_in(bytes, 20), // Flags
        version: u8_in(bytes, 32), // Version
        reserved: [0; 7],
    })
}
