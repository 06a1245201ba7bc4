//! The entries of a MADT, its fixed fields, and the models of the interrupts that it describes.
//!
//! - `entries`: the first entries and their flags, then whether they have ended malformed before the first one
//!   is read, how many there are, and whether they have after the last one; `steps`: whether they have before each
//!   of four steps, and whether the step returns an entry;
//! - `trace_interrupt REVISION`: the trace buffer's interrupt in the first entry, as a table of this revision has it;
//! - `record`: the fixed fields, and of a mapping how many entries it has, the mailbox, and older interrupt
//!   controllers;
//! - `model`, the APICs and the processors, `gic`, the GIC, and `heap SIZE CALL` for both;
//! - `isa N`, `sci N`, `pin N` and `lines N`: where the APICs have an interrupt come to. A number that is too large for
//!   an argument that is too large counts by its low bits.

use crate::heaps::{self, Gathers};
use crate::models::{print_gic, print_model};
use crate::out::Out;
use crate::words::{first_word, id_of, number_of};
use acpi::handler::MappedRegion;
use acpi::platform::interrupt::{Apic, InterruptModel};
use acpi::{PhysicalMapping, PhysicalRecord};
use acpi_arm::gic::GicModel;
use acpi_base::bytes::field;
use acpi_base::madt::{Madt, MadtEntry, MadtEntryIter};
use linked_list_allocator::LocalHeap;
use std::alloc::Allocator;

/// Prints what a MADT contains.
pub(super) fn answer(out: Out<'_>, bytes: &[u8], call: &str, rest: &str) {
    match call {
        "entries" => entries(out, bytes),
        "steps" => steps(out, MadtEntryIter::over(bytes)),
        "trace_interrupt" => trace_interrupt(out, bytes, number_of(rest)),
        "heap" => {
            let (size, call) = first_word(rest);
            let gathers = InBytes {
                bytes,
                call,
                rest: "",
            };
            heaps::over(out, &gathers, number_of(size));
        }
        _ => InBytes { bytes, call, rest }.gather(out, out.alloc(), None),
    }
}

fn entries(out: Out<'_>, bytes: &[u8]) {
    let revision = field(bytes, 8, 1) as u8; // Revision
    let mut entries = MadtEntryIter::over(bytes);
    let before = entries.ended_malformed();
    let mut count = 0u32;
    for entry in entries.by_ref() {
        if count < 16 {
            out.show(&entry);
            flags(out, &entry, revision);
        }
        count = count.wrapping_add(1);
    }
    out.show(&(before, count, entries.ended_malformed()));
}

/// The flags of an entry in a table of a revision: of a processor whether it is enabled and whether it
/// can be enabled later, of a local NMI its polarity and its trigger mode.
fn flags(out: Out<'_>, entry: &MadtEntry, revision: u8) {
    match entry {
        MadtEntry::LocalApic(it) => out.show(&(it.is_enabled(), it.is_online_capable(revision))),
        MadtEntry::LocalX2Apic(it) => out.show(&(it.is_enabled(), it.is_online_capable(revision))),
        MadtEntry::LocalApicNmi(it) => out.show(&(it.polarity(), it.trigger_mode())),
        MadtEntry::X2ApicNmi(it) => out.show(&(it.polarity(), it.trigger_mode())),
        _ => {}
    }
}

fn steps(out: Out<'_>, mut entries: MadtEntryIter<'_>) {
    for _ in 0..4 {
        let ended = entries.ended_malformed();
        out.show(&(ended, entries.next().is_some()));
    }
}

fn trace_interrupt(out: Out<'_>, bytes: &[u8], revision: u64) {
    if let Some(MadtEntry::Gicc(entry)) = MadtEntryIter::over(bytes).next() {
        out.show(&entry.trbe_interrupt.access((revision % 0x100) as u8));
    }
}

/// A call over the bytes of a MADT.
#[derive(Drop)]
struct InBytes<'t> {
    bytes: &'t [u8],
    call: &'t str,
    rest: &'t str,
}

impl Gathers for InBytes<'_> {
    fn gather<A: Allocator + Copy>(&self, out: Out<'_>, allocator: A, _heap: Option<&LocalHeap>) {
        let bytes = self.bytes;
        if self.call == "gic" {
            print_gic(out, GicModel::of(bytes, allocator));
        } else if let (true, Ok(region)) = (
            bytes.len() >= Madt::MIN_LENGTH,
            MappedRegion::new(0, bytes),
        ) {
            let madt = PhysicalMapping::<_, Madt>::new(0, bytes, bytes.len(), &region);
            if self.call == "record" {
                out.spread(&(
                    (madt.entries().count(), madt.get_mpwk_mailbox_addr()),
                    madt.supports_8259(),
                    madt.get(),
                ));
            } else {
                of_model(out, &madt, allocator, (self.call, self.rest));
            }
        }
    }
}

/// Prints what the interrupt model of a MADT contains.
fn of_model<A: Allocator + Copy>(
    out: Out<'_>,
    madt: &PhysicalMapping<'_, MappedRegion<'_>, Madt>,
    allocator: A,
    (call, rest): (&str, &str),
) {
    match madt.parse_interrupt_model_in(allocator) {
        Err(refusal) => out.show(&refusal),
        Ok((model, processors)) if call == "model" => print_model(out, &model, &processors),
        Ok((model, _processors)) => match &model {
            InterruptModel::Apic(apic) => of_apics(out, apic, call, id_of(rest)),
            _ => out.print(&"unknown model"),
        },
    }
}

/// Prints where an interrupt comes to.
fn of_apics<A: Allocator>(out: Out<'_>, apic: &Apic<A>, call: &str, number: u32) {
    match call {
        "lines" => out.list(apic.local_nmi_lines_for(number)),
        "isa" => out.show(&apic.isa_interrupt((number % 0x100) as u8)),
        "sci" => out.show(&apic.sci_interrupt((number % 0x10000) as u16)),
        _ => match apic.io_apic_for(number) {
            Some(it) => out.show(&(it.io_apic.id, it.pin)),
            None => out.print(&"no APIC"),
        },
    }
}
