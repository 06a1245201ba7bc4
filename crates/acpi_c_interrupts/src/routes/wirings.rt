//! How Interrupt Source Overrides of the ISA bus wire the ISA interrupts and the SCI, found by one walk along the
//! entries of a MADT (section 5.2.12.5).
ghost use Rattle.std.specs.Prelude.{◌≡◌};
ghost use Rattle.acpi_base.specs.Words.{entries_of};
ghost use Rattle.acpi_c_interrupts.specs.Words.{AreWirings, MadtEntry, has_codes, interrupt_record, isa_in, isa_override_in, sci_in};

mod shown;

use crate::apics::MadtRecord;
use crate::apics::records::{Interrupt, InterruptSourceOverride};
use acpi::AcpiError;
use acpi::platform::interrupt::{Polarity, TriggerMode};
use acpi_base::madt::{MadtEntry, MadtEntryIter};
use acpi_base::model::IsaOverrides;
use acpi_c_lib::refusal::Refusal;
use acpi_table_writer::spelled::StandsFor;
use shown::interrupt_record;

/// What the overrides of the ISA bus among a MADT's entries contain.
#[derive(Drop)]
pub(crate) struct Wirings {
    // All of them, where a reserved code is read as that of the bus.
    pub(crate) overrides: IsaOverrides,
    // Of each ISA interrupt its last override.
    pub(crate) own: [Option<InterruptSourceOverride>; 16],
}

impl Wirings {
    /// Those among the entries of a MADT's bytes.
    pub(crate) fn among(table: &[u8]) -> Wirings
        ensures { AreWirings (entries_of table.now) result.overrides result.own }
    {
        let mut overrides = IsaOverrides::new();
        let mut own = [None; 16];
        for entry in MadtEntryIter::over(table) {
            if let Some(wiring) = isa_override(&entry) {
                overrides.add(&wiring.item());
                if wiring.isa_source < 16 {
                    own[wiring.isa_source as usize] = Some(wiring);
                }
            }
        }
        Wirings { overrides, own }
    }

    /// An ISA interrupt. Its own override is the only one whose codes count.
    pub(crate) fn isa(&self, irq: u8) -> Result<Interrupt, Refusal>
        ensures { (entries : _) → AreWirings entries self.now.overrides self.now.own → result ≡ isa_in entries irq }
    {
        if irq < 16 {
            has_codes(self.own[irq as usize])?;
        }
        let interrupt = self
            .overrides
            .isa_interrupt(irq)
            .ok_or(Refusal::NoSuchInterrupt)?;
        Ok(interrupt_record(&interrupt))
    }

    /// The SCI, of the number in the FADT.
    pub(crate) fn sci(&self, sci: u16) -> Result<Interrupt, Refusal>
        ensures { (entries : _) → AreWirings entries self.now.overrides self.now.own → result ≡ sci_in entries sci }
    {
        if sci < 16 {
            has_codes(self.own[sci as usize])?;
        }
        Ok(interrupt_record(&self.overrides.sci_interrupt(sci)))
    }
}

/// The override of the ISA bus that an entry is, if it is one.
fn isa_override(entry: &MadtEntry) -> Option<InterruptSourceOverride>
    ensures { result ≡ isa_override_in entry.now }
{
    match InterruptSourceOverride::said(entry) {
        Some(wiring) if wiring.bus == 0 => Some(wiring),
        _ => None,
    }
}

/// Fails for an override with a reserved code, first for its polarity and then for its trigger mode.
fn has_codes(own: Option<InterruptSourceOverride>) -> Result<(), Refusal>
    ensures { result ≡ has_codes own }
{
    if let Some(wiring) = own {
        Polarity::try_from(wiring.polarity).map_err(AcpiError::InvalidMadt)?;
        TriggerMode::try_from(wiring.trigger).map_err(AcpiError::InvalidMadt)?;
    }
    Ok(())
}
