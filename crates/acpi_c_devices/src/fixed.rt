//! The fixed hardware.
ghost use Rattle.std.specs.Prelude.{◌≡◌, ◌≤◌, length};
ghost use Rattle.acpi_c_devices.specs.Words.{fixed_below, gpe_record, hypervisor_id_in, no_gpe};

mod readings;
pub mod records;

use crate::fixed::records::FixedHardware;
use acpi::AcpiResult;
use acpi::fadt::GpeBlock;
use acpi_base::bytes::{field, u8_in};
use acpi_c_lib::opening::first_fadt;
use acpi_c_lib::records::Source;
use acpi_c_lib::refusal::Refusal;
use acpi_c_lib::regions::Mapped;
use readings::fixed_record;

/// The fixed hardware of the first valid FADT.
pub fn fixed(source: &Source<'_>) -> Result<FixedHardware, Refusal>
    ensures { result ≡ fixed_below source.now }
{
    let memory = Mapped::new(source.regions);
    let fadt = first_fadt(&memory, source)?;
    Ok(fixed_record(&fadt))
}

/// Hypervisor Vendor Identity, which a FADT has from revision 6 on.
fn hypervisor_id_in(table: &[u8]) -> u64
    requires { 116 ≤ length table.now }
    ensures { result ≡ hypervisor_id_in table.now }
{
    if u8_in(table, 8) < 6 {
        return 0;
    }
    field(table, 268, 8)
}

/// A block of registers of general purpose events, or that there is none, or that its address is an error.
#[inline(never)]
fn gpe_record(outcome: AcpiResult<Option<GpeBlock>>) -> records::GpeBlock
    ensures { result ≡ gpe_record outcome }
{
    match outcome {
        Ok(Some(block)) => records::GpeBlock {
            address: block.address,
            space: block.space.code(),
            byte_length: block.byte_length,
            present: 1,
            reserved: [0; 5],
        },
        Ok(None) => no_gpe(0),
        Err(_) => no_gpe(2),
    }
}

/// No block of general purpose events: 0 if there is none, or 2 if its address is an error.
fn no_gpe(present: u8) -> records::GpeBlock
    ensures { result ≡ no_gpe present }
{
    records::GpeBlock {
        address: 0,
        space: 0,
        byte_length: 0,
        present,
        reserved: [0; 5],
    }
}
