//! The address of the local APICs, by the MADT alone (section 5.2.12).
ghost use Rattle.std.specs.Prelude.{◌≡◌};
ghost use Rattle.acpi_base.specs.Words.{bytes_of};
ghost use Rattle.acpi_c_interrupts.specs.Words.{apics_by, local_apic_below};

use crate::apics::records::LocalApic;
use acpi::madt::Madt;
use acpi::{Lender, PhysicalMapping};
use acpi_base::model::MadtItem;
use acpi_c_lib::opening::first;
use acpi_c_lib::records::Source;
use acpi_c_lib::refusal::Refusal;
use acpi_c_lib::regions::Mapped;

/// The address of the local APICs, and whether the machine has 8259s too, by the first valid MADT. What is wrong with
/// its other entries changes nothing, and neither does the FADT.
pub fn local_apic(source: &Source<'_>) -> Result<LocalApic, Refusal>
    ensures { result ≡ local_apic_below source.now }
{
    let memory = Mapped::new(source.regions);
    let madt = first::<Madt>(&memory, source)?;
    Ok(LocalApic {
        address: address_in(&madt),
        also_has_8259: madt.supports_8259() as u8,
        reserved: [0; 7],
    })
}

/// The address in the last Local APIC Address Override of a MADT, or else in its own field.
fn address_in<H: Lender>(madt: &PhysicalMapping<'_, H, Madt>) -> u64
    ensures { result ≡ (apics_by (bytes_of madt.now)).local_apic_address }
{
    let mut address = madt.local_apic_address as u64;
    for item in madt.items() {
        if let MadtItem::LocalApicAddress(other) = item {
            address = other;
        }
    }
    address
}
