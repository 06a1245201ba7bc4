//! How interrupts come to the I/O APICs, by walks along the entries of the MADT.
ghost use Rattle.std.specs.Prelude.{◌≡◌, ◌≤◌, IfSome, filter_map};
ghost use Rattle.acpi_base.specs.Words.{entries_of, base_of, nearest};
ghost use Rattle.acpi_c_interrupts.specs.Words.{apic_in, is_nearer, isa_below, pin_below, sci_below};

pub mod isa_list;
mod wirings;

use crate::apics::apics;
use crate::apics::madt::io_apic_record;
use crate::apics::records::{Interrupt, IoApicPin};
use crate::routes::wirings::Wirings;
use acpi::platform::interrupt::IoApic;
use acpi_base::madt::{MadtEntry, MadtEntryIter};
use acpi_c_lib::opening::first_fadt;
use acpi_c_lib::records::Source;
use acpi_c_lib::refusal::Refusal;
use acpi_c_lib::regions::Mapped;

/// The global system interrupt of one of the 16 ISA interrupts.
pub fn isa(source: &Source<'_>, irq: u8) -> Result<Interrupt, Refusal>
    ensures { result ≡ isa_below source.now irq }
{
    let memory = Mapped::new(source.regions);
    let madt = apics(&memory, source)?;
    Wirings::among(madt.bytes()).isa(irq)
}

/// The global system interrupt of the System Control Interrupt.
pub fn sci(source: &Source<'_>) -> Result<Interrupt, Refusal>
    ensures { result ≡ sci_below source.now }
{
    let memory = Mapped::new(source.regions);
    let madt = apics(&memory, source)?;
    let fadt = first_fadt(&memory, source)?;
    Wirings::among(madt.bytes()).sci(fadt.sci_interrupt())
}

/// The I/O APIC that a global system interrupt comes to, and the pin there.
pub fn pin(source: &Source<'_>, interrupt: u32) -> Result<IoApicPin, Refusal>
    ensures { result ≡ pin_below source.now interrupt }
{
    let memory = Mapped::new(source.regions);
    let madt = apics(&memory, source)?;
    let io_apic = nearest(madt.bytes(), interrupt).ok_or(Refusal::NoSuchIoApic)?;
    Ok(IoApicPin {
        io_apic: io_apic_record(&io_apic),
        pin: interrupt - io_apic.global_system_interrupt_base,
    })
}

/// The first I/O APIC of the greatest base that is at most the interrupt.
#[tactic(auto, using(acpi_base::proofs::Pin::one_nearer))]
fn nearest(table: &[u8], interrupt: u32) -> Option<IoApic>
    ensures found { result ≡ nearest interrupt (filter_map apic_in (entries_of table.now)) }
    ensures below { IfSome result (λ x. base_of x ≤ interrupt) }
{
    let mut found = None;
    for entry in MadtEntryIter::over(table) {
        let Some(io_apic) = io_apic(&entry) else {
            continue;
        };
        if io_apic.global_system_interrupt_base <= interrupt && is_nearer(found, &io_apic) {
            found = Some(io_apic);
        }
    }
    found
}

/// The I/O APIC that an entry is, if it is one.
pub(crate) fn io_apic(entry: &MadtEntry) -> Option<IoApic>
    ensures { result ≡ apic_in entry.now }
{
    match entry {
        MadtEntry::IoApic(e) => Some(IoApic {
            id: e.io_apic_id,
            address: e.io_apic_address,
            global_system_interrupt_base: e.global_system_interrupt_base,
        }),
        _ => None,
    }
}

/// Whether an I/O APIC is nearer than the one so far.
fn is_nearer(found: Option<IoApic>, io_apic: &IoApic) -> bool
    ensures { result ≡ is_nearer found io_apic.now }
{
    match found {
        Some(other) => { other.global_system_interrupt_base < io_apic.global_system_interrupt_base }
        None => true,
    }
}
