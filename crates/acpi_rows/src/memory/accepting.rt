//! Tables, and RSDPs, of which checks are given up.

use crate::checked::{Numbered, Unsummed};
use crate::out::Out;
use crate::words::{areas_of, first_word, id_of, number_of};
use acpi::root::{RootKind, RootPointer};
use acpi::{Accept, AcpiHandler, AcpiResult, AcpiTable, AcpiTables};

/// Opens the RSDT at 0x1000 with these bits of a policy, and prints for two types with a check of their own where the
/// first table is that is accepted, or why none is.
pub(super) fn answer<H: AcpiHandler>(out: Out<'_>, handler: &H, bits: u32) {
    let root_pointer = RootPointer {
        revision: 0,
        kind: RootKind::Rsdt,
        address: 0x1000,
    };
    match AcpiTables::open_accepting(handler, root_pointer, Accept { bits }) {
        Err(refusal) => out.show(&refusal),
        Ok(tables) => {
            print_first::<Numbered, H>(out, &tables);
            print_first::<Unsummed, H>(out, &tables);
        }
    }
}

/// Opens tables with the bits of a policy and a way as words, `BITS rsdp ADDRESS`, `BITS bios` or `BITS areas AREAS`,
/// and prints their revision and root table, or why there are none.
pub(super) fn opened<H: AcpiHandler>(out: Out<'_>, handler: &H, words: &str) {
    match open(out, handler, words) {
        Err(refusal) => out.show(&refusal),
        Ok(tables) => {
            let place = (tables.root_address(), tables.root_length());
            out.show(&(tables.revision(), place, tables.root_signature()));
        }
    }
}

/// The tables that a way leads to by the bits before it.
fn open<'h, H: AcpiHandler>(
    out: Out<'_>,
    handler: &'h H,
    words: &str,
) -> AcpiResult<AcpiTables<'h, H, Accept>> {
    let (bits, way) = first_word(words);
    let (way, place) = first_word(way);
    let policy = Accept { bits: id_of(bits) };
    match way {
        "areas" => {
            AcpiTables::search_in_accepting(handler, &areas_of(out.alloc(), place)?, policy)
        }
        "bios" => AcpiTables::search_for_rsdp_bios_accepting(handler, policy),
        _ => AcpiTables::from_rsdp_accepting(handler, number_of(place), policy),
    }
}

/// Prints where the first table is that is accepted for a type, or the errors of all.
fn print_first<T: AcpiTable, H: AcpiHandler>(out: Out<'_>, tables: &AcpiTables<'_, H, Accept>) {
    match tables.find_table::<T>() {
        Ok(table) => out.place(&table),
        Err(_) => {
            for fault in tables.faults::<T>() {
                out.show(&fault.error);
            }
        }
    }
}
