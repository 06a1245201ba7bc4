//! A scene: what its steps open and keep.
//!
//! - `rsdt REVISION ADDRESS`, `rsdp ADDRESS`, `bios`, `areas ADDRESS LENGTH, ..` and `validated` open tables (`ways`).
//!   `close` drops them.
//! - `search` and `within ADDRESS LENGTH, ..` look an RSDP up and drop it, `bios_areas EBDA` prints where the former
//!   looks. `lend ADDRESS LENGTH, ..` requests bytes, and prints all that are mapped for each;
//!   `guarded` requests two numbers, as it may (`guarded`), and `accepting BITS` looks two types up with a check of
//!   their own (`accepting`).
//! - `keep` finds the boot graphic and keeps its mapping. `table ADDRESS`, `named ADDRESS NAME`, `own ADDRESS`, `given
//!   ADDRESS` and `map ADDRESS` keep what they map (`kept`). `show` prints what was kept last, and `release PLACE`
//!   drops one, or else the first.
//! - All other steps are calls over the tables (`all`).

use super::kept::{Kept, mapped};
use super::ways::{found, open};
use super::{accepting, all, guarded};
use crate::out::Out;
use crate::words::{areas_of, id_of, number_of};
use acpi::rsdp::bios_areas;
use acpi::{AcpiHandler, AcpiResult, AcpiTables, AddressRange, Lender};
use acpi_cli::parse_address;

/// What the steps so far have opened and kept.
#[derive(Drop)]
pub(super) struct Scene<'r, H: Lender> {
    out: Out<'r>,
    handler: &'r H,
    tables: Option<AcpiTables<'r, H>>,
    kept: Vec<Kept<'r, H>>,
}

impl<'r, H: AcpiHandler> Scene<'r, H> {
    /// A scene before its first step.
    pub(super) fn new(out: Out<'r>, handler: &'r H) -> Scene<'r, H> {
        Scene {
            out,
            handler,
            tables: None,
            kept: Vec::new(out.alloc()),
        }
    }

    /// Does a step.
    pub(super) fn perform(&mut self, call: &str, rest: &str) {
        let out = self.out;
        match call {
            "rsdt" | "rsdp" | "bios" | "areas" | "validated" => self.open(call, rest),
            "search" | "within" => match found(out.alloc(), self.handler, call, rest) {
                Ok(rsdp) => out.place(&rsdp),
                Err(refusal) => out.show(&refusal),
            },
            "bios_areas" => out.show(&bios_areas(parse_address(rest))),
            "lend" => match areas_of(out.alloc(), rest) {
                Ok(areas) => lend(out, self.handler, &areas),
                Err(refusal) => out.show(&refusal),
            },
            "guarded" => guarded::numbers(out, self.handler),
            "accepting" => accepting::answer(out, self.handler, id_of(rest)),
            "accepted" => accepting::opened(out, self.handler, rest),
            "close" => self.tables = None,
            "release" => self.release(number_of(rest) as usize),
            "show" => {
                if let Some(kept) = self.kept.last() {
                    kept.show(out);
                }
            }
            "keep" => self.keep_graphic(),
            "table" | "named" | "own" | "given" | "map" => {
                self.keep(mapped(self.handler, call, rest));
            }
            _ => {
                if let Some(tables) = &self.tables {
                    all::answer(out, tables, call, rest);
                }
            }
        }
    }

    /// Opens tables, and keeps them if there are any.
    fn open(&mut self, way: &str, place: &str) {
        match open(self.out.alloc(), self.handler, way, place) {
            Err(refusal) => self.out.show(&refusal),
            Ok(tables) => {
                self.out.show(&tables.revision());
                self.tables = Some(tables);
            }
        }
    }

    /// Keeps the boot graphic, if it is found in tables that are open.
    fn keep_graphic(&mut self) {
        if let Some(tables) = &self.tables {
            let graphic = found_graphic(tables);
            self.keep(graphic);
        }
    }

    /// Keeps a mapping, if there is one.
    fn keep(&mut self, mapping: AcpiResult<Kept<'r, H>>) {
        match mapping {
            Err(refusal) => self.out.show(&refusal),
            Ok(mapping) => {
                mapping.place(self.out);
                if self.kept.push(mapping).is_err() {
                    self.out.print(&"no memory");
                }
            }
        }
    }

    /// Drops the mapping that is kept at a place of the list.
    fn release(&mut self, place: usize) {
        if place < self.kept.len() {
            self.kept.remove(place);
        }
    }
}

/// Requests each of these ranges, and lets go what is mapped.
fn lend<H: AcpiHandler>(out: Out<'_>, handler: &H, areas: &[AddressRange]) {
    for area in areas {
        let (address, size) = (area.address, area.length as usize);
        if size != 0 {
            match handler.map_physical_region(address, size) {
                Err(refusal) => out.show(&refusal),
                Ok(bytes) => {
                    out.bytes(bytes);
                    handler.unmap_physical_region(address, size, bytes.len());
                }
            }
        }
    }
}

/// The boot graphic that is found.
fn found_graphic<'r, H: AcpiHandler>(tables: &AcpiTables<'r, H>) -> AcpiResult<Kept<'r, H>> {
    Ok(Kept::Graphic(tables.find_table()?))
}
