//! Intel's units that remap devices.
//!
//! - `record`: Host Address Width and the flags;
//! - `structures`: each with its type, its fields and what they mean, its object's name and its scopes, of which each
//!   has Type, Flags, Enumeration ID, Start Bus Number and hops, and whether these have ended malformed before the
//!   first one is read and after the last one; then the same of the structures, with how many there are between;
//! - `unit DEVICE`, `io_apic ID`, `hpet NUMBER`, `reserved DEVICE`. A device is a segment, a bus, and the device and
//!   the function of each hop from there to it.

use crate::out::Out;
use crate::words::{first_word, number_of};
use acpi_base::PhysicalRecord;
use acpi_iommu::{Dmar, DmarFields, DmarStructure, DmarUnits, Hop};
use std::alloc::{AllocError, Global};

/// Prints what a DMAR contains.
pub(super) fn answer(out: Out<'_>, table: &[u8], call: &str, rest: &str) {
    let units = DmarUnits::over(table);
    let number = (number_of(rest) % 0x100) as u8;
    match call {
        "record" => record(out, table),
        "structures" => structures(out, &units),
        "io_apic" => out.show(&units.unit_of_io_apic(number)),
        "hpet" => out.show(&units.unit_of_hpet(number)),
        _ => of_device(out, &units, call, rest),
    }
}

fn record(out: Out<'_>, table: &[u8]) {
    if table.len() < Dmar::MIN_LENGTH {
        return out.print(&"short");
    }
    let dmar = Dmar::read(table);
    out.spread(&(
        (dmar.address_bits(), dmar.remaps_interrupts()),
        (dmar.opts_out_of_x2apic(), dmar.opts_into_dma_control()),
    ));
}

fn structures(out: Out<'_>, units: &DmarUnits<'_>) {
    let mut structures = units.structures();
    let before = structures.ended_malformed();
    let mut count = 0u32;
    for structure in structures.by_ref() {
        out.show(&(structure.kind(), structure.fields()));
        fields(out, structure.fields());
        if let Some(name) = structure.object_name() {
            out.show(&name);
        }
        scopes(out, &structure);
        count = count.wrapping_add(1);
    }
    out.show(&(before, count, structures.ended_malformed()));
}

/// What the fields of a structure mean.
fn fields(out: Out<'_>, fields: Option<DmarFields>) {
    match fields {
        Some(DmarFields::Drhd(unit)) => {
            out.show(&(unit.includes_pci_all(), unit.register_bytes()));
        }
        Some(DmarFields::Atsr(ports)) => out.show(&ports.has_all_ports()),
        Some(DmarFields::Satc(devices)) => out.show(&devices.requires_cache()),
        Some(DmarFields::Rmrr(range)) => out.show(&range.length()),
        _ => {}
    }
}

fn scopes(out: Out<'_>, structure: &DmarStructure<'_>) {
    let mut scopes = structure.scopes();
    let before = scopes.ended_malformed();
    for scope in scopes.by_ref() {
        out.show(&(
            scope.kind(),
            scope.flags(),
            scope.enumeration_id(),
            scope.start_bus(),
        ));
        out.list(scope.hops());
    }
    out.show(&(before, scopes.ended_malformed()));
}

/// What the table has of a device.
fn of_device(out: Out<'_>, units: &DmarUnits<'_>, call: &str, rest: &str) {
    let (segment, rest) = first_word(rest);
    let (bus, rest) = first_word(rest);
    let (segment, bus) = (
        (number_of(segment) % 0x10000) as u16,
        (number_of(bus) % 0x100) as u8,
    );
    let Ok(hops) = hops_of(out.alloc(), rest) else {
        return;
    };
    if call == "unit" {
        return out.show(&units.unit_for(segment, bus, &hops));
    }
    match units.reserved_for(segment, bus, &hops) {
        Err(refusal) => out.show(&refusal),
        Ok(ranges) => {
            for range in ranges {
                out.show(&(range.base, range.limit, range.length()));
            }
        }
    }
}

/// The hops that a text lists.
fn hops_of(alloc: Global, text: &str) -> Result<Vec<Hop>, AllocError> {
    let mut hops = Vec::new(alloc);
    for part in text.split(' ') {
        if let Some((device, function)) = part.split_once('.') {
            hops.push(Hop {
                device: (number_of(device) % 0x100) as u8,
                function: (number_of(function) % 0x100) as u8,
            })?;
        }
    }
    Ok(hops)
}
