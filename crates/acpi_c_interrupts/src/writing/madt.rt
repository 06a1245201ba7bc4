//! The MADT that is written for C (section 5.2.12), from its records of processors and interrupt controllers.
ghost use Rattle.std.specs.Prelude.{◌≡◌, ◌&&◌};
ghost use Rattle.acpi_base.specs.FromStd.{list_all};
ghost use Rattle.acpi_c_interrupts.specs.WrittenMadt as written;

mod shown;

use crate::apics::records::{InterruptSourceOverride, IoApic, NmiLine, NmiSource, Processor};
use crate::written_records::MadtContents;
use acpi_base::model;
use acpi_base::model::{Polarity, TriggerMode};
use acpi_table_writer::spelled::StandsFor;
use acpi_table_writer::{MadtNmiLine, MadtProcessor};
use shown::{io_apic_of, nmi_line_of, nmi_source_of, override_of, processor_of};

/// Whether a number is the code of a polarity, which is one of a trigger mode too.
pub(super) fn is_wiring(code: u8) -> bool
    ensures { result ≡ written.is_wiring code }
{
    Polarity::try_from(code).is_ok()
}

pub(super) fn polarity(code: u8) -> Polarity
    ensures { result ≡ written.polarity_of code }
{
    Polarity::try_from(code).unwrap_or(Polarity::SameAsBus)
}

pub(super) fn trigger(code: u8) -> TriggerMode
    ensures { result ≡ written.trigger_of code }
{
    TriggerMode::try_from(code).unwrap_or(TriggerMode::SameAsBus)
}

impl StandsFor<MadtProcessor> for Processor {
    ghost meant = { written.processor_of };

    fn item(&self) -> MadtProcessor {
        processor_of(self)
    }
}

impl StandsFor<model::IoApic> for IoApic {
    ghost meant = { written.io_apic_of };

    fn item(&self) -> model::IoApic {
        io_apic_of(self)
    }
}

impl StandsFor<model::InterruptSourceOverride> for InterruptSourceOverride {
    ghost meant = { written.override_of };

    fn item(&self) -> model::InterruptSourceOverride {
        override_of(self)
    }
}

impl StandsFor<model::NmiSource> for NmiSource {
    ghost meant = { written.nmi_source_of };

    fn item(&self) -> model::NmiSource {
        nmi_source_of(self)
    }
}

impl StandsFor<MadtNmiLine> for NmiLine {
    ghost meant = { written.nmi_line_of };

    fn item(&self) -> MadtNmiLine {
        nmi_line_of(self)
    }
}

fn overrides_have_codes(overrides: &[InterruptSourceOverride]) -> bool
    ensures { result ≡ list_all written.is_of_isa overrides.now }
{
    overrides.iter().all(|x| x.bus == 0 && is_wiring(x.polarity) && is_wiring(x.trigger))
}

fn sources_have_codes(sources: &[NmiSource]) -> bool
    ensures { result ≡ list_all (λ x. written.is_wiring x.polarity && written.is_wiring x.trigger) sources.now }
{
    sources
        .iter()
        .all(|x| is_wiring(x.polarity) && is_wiring(x.trigger))
}

fn lines_have_codes(lines: &[NmiLine]) -> bool
    ensures { result ≡ list_all written.is_lint lines.now }
{
    lines.iter().all(|x| x.lint <= 1 && is_wiring(x.polarity) && is_wiring(x.trigger))
}

/// Whether each bus is ISA's, and each polarity, trigger mode and LINT pin one that there is.
pub fn has_codes(contents: &MadtContents<'_>) -> bool
    ensures { result ≡ written.has_codes contents.now }
{
    overrides_have_codes(contents.overrides)
        && sources_have_codes(contents.nmi_sources)
        && lines_have_codes(contents.nmi_lines)
}

/// What the MADT is to contain, as the writer has it.
pub fn contents<'a>(
    given: &MadtContents<'a>,
) -> acpi_table_writer::MadtContents<
    'a,
    Processor,
    IoApic,
    InterruptSourceOverride,
    NmiSource,
    NmiLine,
>
    ensures { result ≡ written.contents_of given.now }
{
    acpi_table_writer::MadtContents {
        local_apic_address: given.local_apic_address,
        also_has_legacy_pics: given.also_has_8259 != 0,
        processors: given.processors,
        io_apics: given.io_apics,
        interrupt_source_overrides: given.overrides,
        nmi_sources: given.nmi_sources,
        local_apic_nmi_lines: given.nmi_lines,
        wakeup_mailbox: (given.has_wakeup_mailbox != 0).then_some(given.wakeup_mailbox),
    }
}
