//! Processors and memory of nodes.
//!
//! - `entries`: each with whether it counts and its other flags, then whether they have ended malformed before
//!   the first one is read, how many there are, and whether they have after the last one;
//! - `apic ID` and `processor UID`: the domain of a processor;
//! - `ranges` of memory, and `domain ADDRESS`, the domain of an address.

use crate::models::print_ranges;
use crate::out::Out;
use crate::words::id_of;
use acpi_numa::{Domains, MemoryAffinities, SratEntry};

/// Prints what an SRAT contains.
pub(super) fn answer(out: Out<'_>, table: &[u8], call: &str, rest: &str) {
    let (alloc, domains) = (out.alloc(), Domains::over(table));
    match call {
        "apic" => out.show(&domains.domain_of_apic(id_of(rest))),
        "processor" => out.show(&domains.domain_of_processor(id_of(rest))),
        "entries" => entries(out, &domains),
        _ => print_ranges(out, MemoryAffinities::over(table, alloc), rest),
    }
}

fn entries(out: Out<'_>, domains: &Domains<'_>) {
    let mut entries = domains.entries();
    let before = entries.ended_malformed();
    let mut count = 0u32;
    for entry in entries.by_ref() {
        if count < 16 {
            out.show(&(entry, entry.is_enabled()));
            bits(out, &entry);
        }
        count = count.wrapping_add(1);
    }
    out.show(&(before, count, entries.ended_malformed()));
}

/// The flags of an entry other than bit 0.
fn bits(out: Out<'_>, entry: &SratEntry) {
    match entry {
        SratEntry::Memory(memory) => {
            out.show(&(memory.is_hot_pluggable(), memory.is_non_volatile()));
        }
        SratEntry::GenericInitiator(device) | SratEntry::GenericPort(device) => {
            out.show(&device.has_architectural_transactions());
        }
        _ => {}
    }
}
