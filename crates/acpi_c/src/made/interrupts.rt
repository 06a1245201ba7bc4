//! Made by scripts/exports of include/zacpi.h, which has what each call does.
ghost use Rattle.acpi_c_interrupts.specs.Words.{AtSamePlaces, CountsBeside, below_apics, below_known, below_platform, counts_of, io_apic_in, isa_below, isa_list_below, local_apic_below, madt_faults_below, mailbox_below, nmi_line_in, nmi_source_in, override_in, pin_below, processors_below, sci_below};
ghost use Rattle.acpi_c_lib.specs.Words.{Answers, AnswersList, AnswersListFrom, items_beside, put_from};
ghost use Rattle.std.specs.Prelude.{filter_map, ◌≡◌};

use acpi_c_interrupts::apics::local_apic::local_apic;
use acpi_c_interrupts::apics::model::model;
use acpi_c_interrupts::apics::platform::platform;
use acpi_c_interrupts::apics::records::{
    Interrupt, InterruptModel, InterruptSourceOverride, IoApic, IoApicPin, IsaInterrupts,
    LocalApic, NmiLine, NmiSource, PlatformLists, Processor,
};
use acpi_c_interrupts::apics::{entries, mailbox, processors, processors_from};
use acpi_c_interrupts::madt_faults::madt_faults;
use acpi_c_interrupts::routes::isa_list::isa_interrupts;
use acpi_c_interrupts::routes::{isa, pin, sci};
use acpi_c_lib::answer::answer;
use acpi_c_lib::entry_faults::EntryFault;
use acpi_c_lib::records::{Signature, Source};

/// Returns which controllers interrupts come to, and how many items the lists of zacpi_get_platform have.
#[unsafe(no_mangle)]
pub extern "C" fn zacpi_1_get_interrupt_model(
    source: &Source<'_>,
    out: &mut InterruptModel,
    named: &mut Signature,
) -> u32
    ensures { Answers result out.old out.new named.old named.new (below_platform source.now counts_of) }
{
    answer(model(source), out, named)
}

/// Returns the address of each processor's local APIC from only the MADT, whatever is wrong with other entries: the
/// address that zacpi_get_interrupt_model returns, if it returns one.
#[unsafe(no_mangle)]
pub extern "C" fn zacpi_1_get_local_apic(
    source: &Source<'_>,
    out: &mut LocalApic,
    named: &mut Signature,
) -> u32
    ensures { Answers result out.old out.new named.old named.new (local_apic_below source.now) }
{
    answer(local_apic(source), out, named)
}

/// Lists the I/O APICs.
#[unsafe(no_mangle)]
pub extern "C" fn zacpi_1_list_io_apics(
    source: &Source<'_>,
    out: &mut [IoApic],
    count: &mut usize,
    named: &mut Signature,
) -> u32
    ensures { AnswersList result out.old out.new count.old count.new named.old named.new
        (below_apics source.now (filter_map io_apic_in)) }
{
    answer(entries(source, out), count, named)
}

/// Lists the Interrupt Source Overrides, also of other buses than ISA.
#[unsafe(no_mangle)]
pub extern "C" fn zacpi_1_list_overrides(
    source: &Source<'_>,
    out: &mut [InterruptSourceOverride],
    count: &mut usize,
    named: &mut Signature,
) -> u32
    ensures { AnswersList result out.old out.new count.old count.new named.old named.new
        (below_apics source.now (filter_map override_in)) }
{
    answer(entries(source, out), count, named)
}

/// Lists the NMI Sources: the I/O APIC pins that are non-maskable.
#[unsafe(no_mangle)]
pub extern "C" fn zacpi_1_list_nmi_sources(
    source: &Source<'_>,
    out: &mut [NmiSource],
    count: &mut usize,
    named: &mut Signature,
) -> u32
    ensures { AnswersList result out.old out.new count.old count.new named.old named.new
        (below_apics source.now (filter_map nmi_source_in)) }
{
    answer(entries(source, out), count, named)
}

/// Lists the Local APIC NMIs and Local x2APIC NMIs: the LINT pins that NMIs come to.
#[unsafe(no_mangle)]
pub extern "C" fn zacpi_1_list_nmi_lines(
    source: &Source<'_>,
    out: &mut [NmiLine],
    count: &mut usize,
    named: &mut Signature,
) -> u32
    ensures { AnswersList result out.old out.new count.old count.new named.old named.new
        (below_apics source.now (filter_map nmi_line_in)) }
{
    answer(entries(source, out), count, named)
}

/// Lists the Processor Local APICs and Processor Local x2APICs.
#[unsafe(no_mangle)]
pub extern "C" fn zacpi_1_list_processors(
    source: &Source<'_>,
    out: &mut [Processor],
    count: &mut usize,
    named: &mut Signature,
) -> u32
    ensures { AnswersList result out.old out.new count.old count.new named.old named.new (processors_below source.now) }
{
    answer(processors(source, out), count, named)
}

/// Lists the items of zacpi_list_processors from the `from`-th on, from 0 on; `count` is of all.
#[unsafe(no_mangle)]
pub extern "C" fn zacpi_1_list_processors_from(
    source: &Source<'_>,
    from: usize,
    out: &mut [Processor],
    count: &mut usize,
    named: &mut Signature,
) -> u32
    ensures { AnswersListFrom from result out.old out.new count.old count.new named.old named.new
        (processors_below source.now) }
{
    answer(processors_from(source, from, out), count, named)
}

/// Returns MailBoxAddress of the first Multiprocessor Wakeup: the address of the mailbox by which processors are woken
/// (section 5.2.12.19).
#[unsafe(no_mangle)]
pub extern "C" fn zacpi_1_get_mailbox_address(
    source: &Source<'_>,
    out: &mut u64,
    named: &mut Signature,
) -> u32
    ensures { Answers result out.old out.new named.old named.new (mailbox_below source.now) }
{
    answer(mailbox(source), out, named)
}

/// Lists the entries with a ZACPI_MADT_ error (of several the least) or ZACPI_SHORT_RISCV_ENTRY, and last, if bytes are
/// left, where none begins, with ZACPI_MADT_INVALID_ENTRY_LENGTH.
#[unsafe(no_mangle)]
pub extern "C" fn zacpi_1_list_madt_faults(
    source: &Source<'_>,
    out: &mut [EntryFault],
    count: &mut usize,
    named: &mut Signature,
) -> u32
    ensures { AnswersList result out.old out.new count.old count.new named.old named.new
        (madt_faults_below source.now) }
{
    answer(madt_faults(source, out), count, named)
}

/// Returns what zacpi_get_interrupt_model returns, and writes the first items of the five lists above.
#[unsafe(no_mangle)]
pub extern "C" fn zacpi_1_get_platform(
    source: &Source<'_>,
    out: &mut InterruptModel,
    lists: &mut PlatformLists<'_>,
    named: &mut Signature,
) -> u32
    ensures model { Answers result out.old out.new named.old named.new (below_known source.now counts_of) }
    ensures processors { lists.new.processors.now
        ≡ put_from lists.old.processors.now 0 (items_beside (below_known source.now counts_of) (processors_below
        source.now)) }
    ensures io_apics { lists.new.io_apics.now
        ≡ put_from lists.old.io_apics.now 0 (items_beside (below_known source.now counts_of) (below_apics source.now
        (filter_map io_apic_in))) }
    ensures overrides { lists.new.overrides.now
        ≡ put_from lists.old.overrides.now 0 (items_beside (below_known source.now counts_of) (below_apics source.now
        (filter_map override_in))) }
    ensures nmi_sources { lists.new.nmi_sources.now
        ≡ put_from lists.old.nmi_sources.now 0 (items_beside (below_known source.now counts_of) (below_apics source.now
        (filter_map nmi_source_in))) }
    ensures nmi_lines { lists.new.nmi_lines.now
        ≡ put_from lists.old.nmi_lines.now 0 (items_beside (below_known source.now counts_of) (below_apics source.now
        (filter_map nmi_line_in))) }
    ensures counts { CountsBeside lists.old lists.new (below_known source.now counts_of) }
    ensures places { AtSamePlaces lists.old lists.new }
{
    answer(platform(source, lists), out, named)
}

/// Returns how one of the 16 ISA interrupts comes to the I/O APICs: by its last override of bus 0, or else as the
/// interrupt of the same number; active high and by edge unless the override states otherwise (section 5.2.12.5).
#[unsafe(no_mangle)]
pub extern "C" fn zacpi_1_get_isa_interrupt(
    source: &Source<'_>,
    irq: u8,
    out: &mut Interrupt,
    named: &mut Signature,
) -> u32
    ensures { Answers result out.old out.new named.old named.new (isa_below source.now irq) }
{
    answer(isa(source, irq), out, named)
}

/// Returns how the System Control Interrupt (SCI), SCI_INT of the FADT, comes to the I/O APICs: by its last override of
/// bus 0 if it is below 16, or else as the interrupt of the same number; active low and by level unless the override
/// states otherwise (sections 5.2.9 and 5.2.12.5).
#[unsafe(no_mangle)]
pub extern "C" fn zacpi_1_get_sci_interrupt(
    source: &Source<'_>,
    out: &mut Interrupt,
    named: &mut Signature,
) -> u32
    ensures { Answers result out.old out.new named.old named.new (sci_below source.now) }
{
    answer(sci(source), out, named)
}

/// Returns the I/O APIC that a global system interrupt comes to, and the pin there: the first one with the greatest
/// Global System Interrupt Base that is at most the interrupt (section 5.2.13).
#[unsafe(no_mangle)]
pub extern "C" fn zacpi_1_get_io_apic_pin(
    source: &Source<'_>,
    interrupt: u32,
    out: &mut IoApicPin,
    named: &mut Signature,
) -> u32
    ensures { Answers result out.old out.new named.old named.new (pin_below source.now interrupt) }
{
    answer(pin(source, interrupt), out, named)
}

/// Returns all 16 ISA interrupts, each with its pin.
#[unsafe(no_mangle)]
pub extern "C" fn zacpi_1_get_isa_interrupts(
    source: &Source<'_>,
    out: &mut IsaInterrupts,
    named: &mut Signature,
) -> u32
    ensures { Answers result out.old out.new named.old named.new (isa_list_below source.now) }
{
    isa_interrupts(source, out, named)
}
