//! Calls over a table's bytes, by what kind of table they are.

mod dmar;
mod fadt;
mod fixed;
mod gtdt;
mod ivrs;
mod madt;
mod names;
mod spcr;
mod srat;

use crate::out::Out;
use crate::runs;
use crate::words::{areas_of, first_word, number_of};
use acpi_image::{PlacedTable, write_image};
use acpi_numa::Distances;
use acpi_sleep::sleep_types;
use std::alloc::{AllocError, Global};

/// Prints what a call returns over a table's bytes.
pub(crate) fn answer(out: Out<'_>, kind: &str, table: &[u8], (call, rest): (&str, &str)) {
    match kind {
        "address" | "command" | "bytes" | "bgrt" | "header" | "mcfg" | "rsdp" => {
            fixed::answer(out, kind, table, rest);
        }
        "aml" => sleep_state(out, table, rest),
        "dmar" => dmar::answer(out, table, call, rest),
        "fadt" => fadt::answer(out, table, call),
        "gtdt" => gtdt::answer(out, table, call),
        "ivrs" => ivrs::answer(out, table, call, rest),
        "madt" => madt::answer(out, table, call, rest),
        "placed" => image(out, table, rest),
        "signature" => names::answer(out, table, call, rest),
        "slit" => slit(out, table, call, rest),
        "spcr" => spcr::answer(out, table, call, rest),
        "srat" => srat::answer(out, table, call, rest),
        _ => runs::answer(out, kind, table, call, rest),
    }
}

/// The bytes before a word's number, or all if there are fewer.
fn front<'b>(bytes: &'b [u8], count: &str) -> &'b [u8] {
    bytes.get(..number_of(count) as usize).unwrap_or(bytes)
}

/// `localities` and whether the SLIT is sane, and `distance FROM TO`.
fn slit(out: Out<'_>, table: &[u8], call: &str, rest: &str) {
    let distances = Distances::over(table);
    let (from, to) = first_word(rest);
    match call {
        "distance" => out.show(&distances.distance(number_of(from), number_of(to))),
        _ => out.show(&(distances.localities(), distances.is_sane())),
    }
}

/// `state STATE COUNT`: the sleep types that the first COUNT bytes of a block of AML contain.
fn sleep_state(out: Out<'_>, aml: &[u8], rest: &str) {
    let (state, count) = first_word(rest);
    match sleep_types(front(aml, count), (number_of(state) % 6) as u8) {
        Ok(types) => out.show(&types),
        Err(error) => out.print(&error),
    }
}

/// `write RSDP ROOT REVISION, ADDRESS LENGTH, ..`: the image of an RSDP and a root table at these addresses and of the
/// first LENGTH bytes at each address, or why none is written.
fn image(out: Out<'_>, bytes: &[u8], rest: &str) {
    let (roots, places) = rest.split_once(", ").unwrap_or((rest, ""));
    let (rsdp, root) = first_word(roots);
    let (root, revision) = first_word(root);
    let Ok(tables) = placed(out.alloc(), bytes, places) else {
        return;
    };
    let revision = (number_of(revision) % 0x100) as u8;
    match write_image(
        out.alloc(),
        number_of(rsdp),
        number_of(root),
        revision,
        &tables,
    ) {
        Ok(file) => out.bytes(&file),
        Err(refusal) => out.show(&refusal),
    }
}

/// The tables at the addresses of a list, each of the first bytes, up to its length.
fn placed<'b>(
    alloc: Global,
    bytes: &'b [u8],
    places: &str,
) -> Result<Vec<PlacedTable<'b>>, AllocError> {
    let mut tables = Vec::new(alloc);
    for area in &areas_of(alloc, places)? {
        tables.push(PlacedTable {
            address: area.address,
            bytes: bytes.get(..area.length as usize).unwrap_or(bytes),
        })?;
    }
    Ok(tables)
}
