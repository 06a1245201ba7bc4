//! The lists of what the entries of the first valid MADT contain of APICs, each entry by itself.
ghost use Rattle.std.specs.Prelude.{◌≡◌, Option, length, filter_map};
ghost use Rattle.acpi_base.specs.FromStd.{list_any};
ghost use Rattle.acpi_base.specs.Words.{entries_of, bytes_of, entries_left, Gives};
ghost use Rattle.acpi_c_lib.specs.Words.{Fills, FillsFrom, Writes, WritesFrom, put_from, mapped_memory, lists_some, memory_in};
ghost use Rattle.acpi_c_interrupts.specs.Words.{MadtEntry, apic_table, below_apics, boot_first, booted, io_apic_in, is_of_apics, mailbox_below, nmi_line, nmi_line_in, nmi_source_in, override_in, processor_in, processors_below, processors_of};

pub mod local_apic;
pub mod madt;
pub mod model;
pub mod platform;
pub mod records;

use crate::apics::records::{InterruptSourceOverride, IoApic, NmiLine, NmiSource, Processor};
use crate::known::Nothing;
use acpi::PhysicalMapping;
use acpi::madt::Madt;
use acpi::platform::interrupt::NmiProcessor;
use acpi_base::bytes::{bits, field};
use acpi_base::madt::{MadtEntry, MadtEntryIter};
use acpi_c_lib::lists::{Listing, fill, fill_part};
use acpi_c_lib::opening::first;
use acpi_c_lib::records::Source;
use acpi_c_lib::refusal::Refusal;
use acpi_c_lib::regions::Mapped;

/// The address of the mailbox by which processors are woken, by the first valid MADT (section 5.2.12.19).
pub fn mailbox(source: &Source<'_>) -> Result<u64, Refusal>
    ensures { result ≡ mailbox_below source.now }
{
    let memory = Mapped::new(source.regions);
    let madt = first::<Madt>(&memory, source)?;
    let address = madt.get_mpwk_mailbox_addr()?;
    Ok(address)
}

/// The first valid MADT, if one of its entries is of APICs.
///
/// Fails as `first` does, and then with `NoApics`.
#[tactic(auto, unfolding(crate::specs::Apics::apic_table))]
pub(crate) fn apics<'h, 'k>(
    memory: &'h Result<Mapped<'k>, Refusal>,
    source: &Source<'_>,
) -> Result<PhysicalMapping<'h, Mapped<'k>, Madt>, Refusal>
    requires { Gives (λ m. mapped_memory m) memory.now (memory_in source.now.regions.now) }
    ensures { Gives (λ m. bytes_of m) result (apic_table source.now) }
{
    let madt = first::<Madt>(memory, source)?;
    if !describes_apics(madt.bytes()) {
        return Err(Refusal::NoApics);
    }
    Ok(madt)
}

/// Whether an entry of a MADT is of APICs.
fn describes_apics(table: &[u8]) -> bool
    ensures { result ≡ list_any is_of_apics (entries_of table.now) }
{
    for entry in MadtEntryIter::over(table) {
        if is_of_apics(&entry) {
            return true;
        }
    }
    false
}

/// Whether an entry is of APICs.
fn is_of_apics(entry: &MadtEntry) -> bool
    ensures { result ≡ is_of_apics entry.now }
{
    match entry {
        MadtEntry::LocalApic(_)
        | MadtEntry::IoApic(_)
        | MadtEntry::InterruptSourceOverride(_)
        | MadtEntry::NmiSource(_)
        | MadtEntry::LocalApicNmi(_)
        | MadtEntry::LocalApicAddressOverride(_)
        | MadtEntry::LocalX2Apic(_)
        | MadtEntry::X2ApicNmi(_) => true,
        _ => false,
    }
}

/// A record for C of an entry of a MADT.
pub trait MadtRecord: Copy {
    // The record of an entry, if it is of this sort.
    ghost record_in: { MadtEntry → Option Self };

    /// The record of an entry, if it is of this sort.
    fn said(entry: &MadtEntry) -> Option<Self>
        ensures { result ≡ record_in entry.now };
}

impl<R: MadtRecord> Listing<Nothing, R> for MadtEntryIter<'_> {
    ghost record_of = { λ known. R.record_in };

    ghost left = { λ known s. filter_map R.record_in (entries_left s) };

    ghost gives_first = { λ known s item t given. lists_some R.record_in (λ x. entries_left x) s item t given.0 };

    fn record(_known: &Nothing, entry: MadtEntry) -> Option<R>
        ensures { result ≡ R.record_in entry }
    {
        R::said(&entry)
    }
}

/// Lists the records of the entries of one sort.
pub fn entries<R: MadtRecord>(source: &Source<'_>, out: &mut [R]) -> Result<usize, Refusal>
    ensures { Fills result out.old out.new (below_apics source.now (filter_map R.record_in)) }
{
    let memory = Mapped::new(source.regions);
    let madt = apics(&memory, source)?;
    Ok(fill_entries(madt.bytes(), out))
}

/// Writes the records of a MADT's entries that are of one sort, and counts them.
#[tactic(auto, using(acpi::proofs::First::filter_map_few))]
fn fill_entries<R: MadtRecord>(table: &[u8], out: &mut [R]) -> usize
    ensures { Writes result out.old out.new (filter_map R.record_in (entries_of table.now)) }
{
    fill(MadtEntryIter::over(table), &Nothing, out)
}

/// Lists the processors, the boot processor first.
#[tactic(auto, using(acpi_c_lib::proofs::Parts::all_from))]
pub fn processors(source: &Source<'_>, out: &mut [Processor]) -> Result<usize, Refusal>
    ensures { Fills result out.old out.new (processors_below source.now) }
{
    processors_from(source, 0, out)
}

/// Lists the processors from the `from`-th on, counted from 0: the first of all is the boot processor.
pub fn processors_from(
    source: &Source<'_>,
    from: usize,
    out: &mut [Processor],
) -> Result<usize, Refusal>
    ensures { FillsFrom from result out.old out.new (processors_below source.now) }
{
    let memory = Mapped::new(source.regions);
    let madt = apics(&memory, source)?;
    Ok(fill_processors(madt.bytes(), from, out))
}

/// Writes the processors of a MADT from the `from`-th on. The first of all is the boot processor.
#[tactic(auto, using(crate::proofs::ApicLists::as_many, crate::proofs::ApicLists::later_same, acpi::proofs::First::filter_map_few))]
fn fill_processors(table: &[u8], from: usize, out: &mut [Processor]) -> usize
    ensures { WritesFrom from result out.old out.new (processors_of table.now) }
{
    let revision = field(table, 8, 1) as u8; // Revision
    let count = fill_part(MadtEntryIter::over(table), &revision, from, out);
    if from == 0 {
        boot_first(out, count);
    }
    count
}

/// Makes the first of the `count` processors that were written the boot processor.
pub(crate) fn boot_first(out: &mut [Processor], count: usize)
    ensures { (before : _) (processors : _) → out.old ≡ put_from before 0 processors → count ≡ length processors
        → out.new ≡ put_from before 0 (boot_first processors) }
{
    if count > 0 && out.len() > 0 {
        out[0] = booted(out[0]);
    }
}

/// A processor as the boot processor: it runs, if it is enabled.
fn booted(processor: Processor) -> Processor
    ensures { result ≡ booted processor }
{
    Processor {
        state: if processor.state == 0 { 0 } else { 2 },
        is_boot: 1,
        ..processor
    }
}

impl Listing<u8, Processor> for MadtEntryIter<'_> {
    ghost record_of = { processor_in };

    ghost left = { λ revision s. filter_map (processor_in revision) (entries_left s) };

    ghost gives_first = { λ revision s item t given.
        lists_some (processor_in revision) (λ x. entries_left x) s item t given.0 };

    fn record(revision: &u8, entry: MadtEntry) -> Option<Processor>
        ensures { result ≡ processor_in revision.now entry }
    {
        processor_in(*revision, &entry)
    }
}

/// The processor that an entry describes in a table of a revision, if it describes one. It waits if it is enabled.
pub(crate) fn processor_in(revision: u8, entry: &MadtEntry) -> Option<Processor>
    ensures { result ≡ processor_in revision entry.now }
{
    match entry {
        MadtEntry::LocalApic(e) => Some(Processor {
            uid: e.processor_id as u32,
            local_apic_id: e.apic_id as u32,
            state: e.is_enabled() as u8,
            is_boot: 0,
            is_online_capable: e.is_online_capable(revision) as u8,
            is_x2apic: 0,
        }),
        MadtEntry::LocalX2Apic(e) => Some(Processor {
            uid: e.processor_uid,
            local_apic_id: e.x2apic_id,
            state: e.is_enabled() as u8,
            is_boot: 0,
            is_online_capable: e.is_online_capable(revision) as u8,
            is_x2apic: 1,
        }),
        _ => None,
    }
}

impl MadtRecord for IoApic {
    ghost record_in = { io_apic_in };

    fn said(entry: &MadtEntry) -> Option<IoApic> {
        match entry {
            MadtEntry::IoApic(e) => Some(IoApic {
                address: e.io_apic_address,
                global_system_interrupt_base: e.global_system_interrupt_base,
                id: e.io_apic_id,
                reserved: [0; 3],
            }),
            _ => None,
        }
    }
}

impl MadtRecord for InterruptSourceOverride {
    ghost record_in = { override_in };

    fn said(entry: &MadtEntry) -> Option<InterruptSourceOverride> {
        match entry {
            MadtEntry::InterruptSourceOverride(e) => Some(InterruptSourceOverride {
                global_system_interrupt: e.global_system_interrupt,
                isa_source: e.irq,
                polarity: bits(e.flags as u64, 0, 2) as u8,
                trigger: bits(e.flags as u64, 2, 2) as u8,
                bus: e.bus,
            }),
            _ => None,
        }
    }
}

impl MadtRecord for NmiSource {
    ghost record_in = { nmi_source_in };

    fn said(entry: &MadtEntry) -> Option<NmiSource> {
        match entry {
            MadtEntry::NmiSource(e) => Some(NmiSource {
                global_system_interrupt: e.global_system_interrupt,
                polarity: bits(e.flags as u64, 0, 2) as u8,
                trigger: bits(e.flags as u64, 2, 2) as u8,
                reserved: [0; 2],
            }),
            _ => None,
        }
    }
}

impl MadtRecord for NmiLine {
    ghost record_in = { nmi_line_in };

    fn said(entry: &MadtEntry) -> Option<NmiLine> {
        match entry {
            MadtEntry::LocalApicNmi(e) => {
                Some(nmi_line(
                    NmiProcessor::ALL_APICS,
                    e.processor_id as u32,
                    e.nmi_line,
                    e.flags,
                ))
            }
            MadtEntry::X2ApicNmi(e) => {
                Some(nmi_line(
                    NmiProcessor::ALL_X2APICS,
                    e.processor_uid,
                    e.nmi_line,
                    e.flags,
                ))
            }
            _ => None,
        }
    }
}

/// A LINT pin of a processor, or of all of them, if the UID is the one that means all.
fn nmi_line(all: u32, uid: u32, lint: u8, flags: u16) -> NmiLine
    ensures { result ≡ nmi_line all uid lint flags }
{
    let of_all = uid == all;
    NmiLine {
        processor_uid: if of_all { 0 } else { uid },
        of_all: of_all as u8,
        lint,
        polarity: bits(flags as u64, 0, 2) as u8,
        trigger: bits(flags as u64, 2, 2) as u8,
    }
}
