//! The lines of the platform.
ghost use Rattle.std.specs.Prelude.{◌≡◌, ◌++◌, ℕ, List, OnOk, codes, flat_map, string_bytes};
ghost use Rattle.acpi.specs.Words.{memory_of, pointers_of};
ghost use Rattle.acpi_view_lib.specs.Lines.{lines_or_refusal};
ghost use Rattle.acpi_view_lib.specs.PlatformLines.{IsPlatformText, apic_lines, info_lines, io_apic_line, model_lines, nmi_input_line, nmi_source_line, override_line, polarity_word, processor_line, processor_lines, state_word, timer_line, trigger_word};

use super::{print_refusal, yes_or_no};
use acpi::platform::interrupt::{
    Apic, InterruptModel, InterruptSourceOverride, IoApic, NmiLine, NmiProcessor, NmiSource,
    Polarity, TriggerMode,
};
use acpi::platform::{PmTimer, Processor, ProcessorInfo, ProcessorState};
use acpi::{AcpiHandler, AcpiResult, AcpiTables, PlatformInfo};
use std::alloc::{AllocError, Allocator};
use std::fmt::Write;

/// The lines of the platform, as the FADT and the MADT describe it, or the one line of its error. Memory for
/// it is an allocator's.
///
/// Fails if memory for the text runs out.
pub fn print_platform<H: AcpiHandler, A: Allocator + Clone>(
    alloc: A,
    tables: &AcpiTables<'_, H>,
    text: &mut String,
) -> Result<(), AllocError>
    ensures { OnOk result ((lines : List ℕ)
        × IsPlatformText A (memory_of tables.now) (pointers_of tables.now) lines
        × (string_bytes text.new ≡ string_bytes text.old ++ lines)) }
{
    print_found(tables.platform_info_in(alloc), text)
}

/// The lines of the platform that is found, or its error.
fn print_found<A: Allocator>(
    found: AcpiResult<PlatformInfo<A>>,
    text: &mut String,
) -> Result<(), AllocError>
    ensures { OnOk result (string_bytes text.new
        ≡ string_bytes text.old ++ lines_or_refusal (codes "platform") info_lines found) }
{
    match found {
        Ok(platform) => print_info(&platform, text),
        Err(refusal) => print_refusal("platform", refusal, text),
    }
}

/// `platform profile N`, then the lines of the interrupt model, of the processors and of the timer.
#[tactic(auto, unfolding(crate::specs::PlatformLines::profile_line))]
fn print_info<A: Allocator>(platform: &PlatformInfo<A>, text: &mut String) -> Result<(), AllocError>
    ensures { OnOk result (string_bytes text.new ≡ string_bytes text.old ++ info_lines platform.now) }
{
    writeln!(text, "platform profile {}", platform.power_profile.code())?;
    print_model(&platform.interrupt_model, text)?;
    print_processors(&platform.processor_info, text)?;
    print_timer(platform.pm_timer, text)
}

/// `model unknown`, or the lines of the APICs.
fn print_model<A: Allocator>(model: &InterruptModel<A>, text: &mut String) -> Result<(), AllocError>
    ensures { OnOk result (string_bytes text.new ≡ string_bytes text.old ++ model_lines model.now) }
{
    match model {
        InterruptModel::Apic(apic) => print_apic(apic, text),
        _ => text.push_str("model unknown\n"),
    }
}

/// `model apic ADDRESS pics yes|no`, then the lines of each list.
#[tactic(auto, unfolding(crate::specs::PlatformLines::apic_line))]
fn print_apic<A: Allocator>(apic: &Apic<A>, text: &mut String) -> Result<(), AllocError>
    ensures { OnOk result (string_bytes text.new ≡ string_bytes text.old ++ apic_lines apic.now) }
{
    let pics = yes_or_no(apic.also_has_legacy_pics);
    writeln!(
        text,
        "model apic 0x{:x} pics {pics}",
        apic.local_apic_address
    )?;
    print_each(apic.io_apics.as_slice(), text)?;
    print_each(apic.interrupt_source_overrides.as_slice(), text)?;
    print_each(apic.nmi_sources.as_slice(), text)?;
    print_each(apic.local_apic_nmi_lines.as_slice(), text)
}

/// An item that is printed as one line.
trait Line {
    // The line, with its newline.
    ghost item_line: { Self → List ℕ };

    /// Puts the item's line after the text.
    fn print(&self, text: &mut String) -> Result<(), AllocError>
        ensures { OnOk result (string_bytes text.new ≡ string_bytes text.old ++ item_line self.now) };
}

/// The line of each item, in order.
fn print_each<L: Line>(items: &[L], text: &mut String) -> Result<(), AllocError>
    ensures { OnOk result (string_bytes text.new ≡ string_bytes text.old ++ flat_map L.item_line items.now) }
{
    for item in items {
        item.print(text)?;
    }
    Ok(())
}

/// `ioapic ID ADDRESS BASE`.
impl Line for IoApic {
    ghost item_line = { io_apic_line };

    fn print(&self, text: &mut String) -> Result<(), AllocError> {
        let base = self.global_system_interrupt_base;
        writeln!(text, "ioapic {} 0x{:x} {base}", self.id, self.address)?;
        Ok(())
    }
}

/// `override SOURCE GSI POLARITY TRIGGER`.
impl Line for InterruptSourceOverride {
    ghost item_line = { override_line };

    fn print(&self, text: &mut String) -> Result<(), AllocError> {
        let (source, gsi) = (self.isa_source, self.global_system_interrupt);
        let (polarity, trigger) = (
            polarity_word(self.polarity),
            trigger_word(self.trigger_mode),
        );
        writeln!(text, "override {source} {gsi} {polarity} {trigger}")?;
        Ok(())
    }
}

/// `nmi GSI POLARITY TRIGGER`.
impl Line for NmiSource {
    ghost item_line = { nmi_source_line };

    fn print(&self, text: &mut String) -> Result<(), AllocError> {
        let (polarity, trigger) = (
            polarity_word(self.polarity),
            trigger_word(self.trigger_mode),
        );
        writeln!(
            text,
            "nmi {} {polarity} {trigger}",
            self.global_system_interrupt
        )?;
        Ok(())
    }
}

/// The word of a polarity: `bus`, `high` or `low`.
fn polarity_word(polarity: Polarity) -> &'static str
    ensures { result.now ≡ polarity_word polarity }
{
    match polarity {
        Polarity::SameAsBus => "bus",
        Polarity::ActiveHigh => "high",
        Polarity::ActiveLow => "low",
    }
}

/// The word of a trigger mode: `bus`, `edge` or `level`.
fn trigger_word(trigger: TriggerMode) -> &'static str
    ensures { result.now ≡ trigger_word trigger }
{
    match trigger {
        TriggerMode::SameAsBus => "bus",
        TriggerMode::Edge => "edge",
        TriggerMode::Level => "level",
    }
}

/// `line all|UID lint0|lint1`.
impl Line for NmiLine {
    ghost item_line = { nmi_input_line };

    fn print(&self, text: &mut String) -> Result<(), AllocError> {
        let number = self.line.code();
        match self.processor {
            NmiProcessor::All => writeln!(text, "line all lint{number}")?,
            NmiProcessor::ProcessorUid(uid) => writeln!(text, "line {uid} lint{number}")?,
        }
        Ok(())
    }
}

/// The line of each processor, the boot processor's first.
fn print_processors<A: Allocator>(
    processors: &Option<ProcessorInfo<A>>,
    text: &mut String,
) -> Result<(), AllocError>
    ensures { OnOk result (string_bytes text.new ≡ string_bytes text.old ++ processor_lines processors.now) }
{
    let Some(info) = processors else {
        return Ok(());
    };
    info.boot_processor.print(text)?;
    print_each(info.application_processors.as_slice(), text)
}

/// `processor UID ID running|waiting|disabled`.
impl Line for Processor {
    ghost item_line = { processor_line };

    fn print(&self, text: &mut String) -> Result<(), AllocError> {
        let (uid, id, state) = (
            self.processor_uid,
            self.local_apic_id,
            state_word(self.state),
        );
        writeln!(text, "processor {uid} {id} {state}")?;
        Ok(())
    }
}

/// The word of a processor's state: `disabled`, `waiting` or `running`.
fn state_word(state: ProcessorState) -> &'static str
    ensures { result.now ≡ state_word state }
{
    match state {
        ProcessorState::Disabled => "disabled",
        ProcessorState::WaitingForSipi => "waiting",
        ProcessorState::Running => "running",
    }
}

/// `timer none`, or `timer ADDRESS bits 24|32`.
fn print_timer(timer: Option<PmTimer>, text: &mut String) -> Result<(), AllocError>
    ensures { OnOk result (string_bytes text.new ≡ string_bytes text.old ++ timer_line timer) }
{
    let Some(timer) = timer else {
        return text.push_str("timer none\n");
    };
    let bits = if timer.supports_32bit { "32" } else { "24" };
    writeln!(text, "timer 0x{:x} bits {bits}", timer.base.address)?;
    Ok(())
}
