//! Calls that gather what tables contain in memory of an allocator.
//!
//! - `platform`, what a machine has, `processor INDEX`, an application processor, and the clones of the platform and
//!   its parts: `clone`, `clone_model`, `clone_apics`, `clone_io_apics` and `clone_processors`;
//! - `regions` of configuration space, by entries and by their ECAM, and the place of a function: `address NUMBER`
//!   by the first of them and `ecam NUMBER` by the second, where the number's bytes are its segment group, of two, its
//!   bus, its device and its own number;
//! - `gic`, the GIC, `memory`, the ranges of memory in domains, and `domain ADDRESS`.

use crate::heaps::{Gathers, held};
use crate::models::{print_apics, print_gic, print_model, print_ranges};
use crate::out::Out;
use crate::words::number_of;
use acpi::mcfg::PciConfigRegions;
use acpi::platform::PlatformInfo;
use acpi::platform::interrupt::InterruptModel;
use acpi::{AcpiHandler, AcpiResult, AcpiTables, Lender};
use acpi_arm::gic::GicModel;
use acpi_numa::MemoryAffinities;
use linked_list_allocator::LocalHeap;
use std::alloc::Allocator;
use std::fmt::Debug;

/// A call over tables that are open.
#[derive(Drop)]
pub(super) struct InMemory<'t, 'h, H: Lender> {
    pub(super) tables: &'t AcpiTables<'h, H>,
    pub(super) call: &'t str,
    pub(super) rest: &'t str,
}

impl<H: AcpiHandler> Gathers for InMemory<'_, '_, H> {
    fn gather<A: Allocator + Copy>(&self, out: Out<'_>, allocator: A, heap: Option<&LocalHeap>) {
        let (tables, rest) = (self.tables, self.rest);
        match self.call {
            "regions" => print_regions(out, PciConfigRegions::new_in(tables, allocator), heap),
            "address" | "ecam" => {
                print_place(
                    out,
                    PciConfigRegions::new_in(tables, allocator),
                    self.call,
                    rest,
                );
            }
            "gic" => print_gic(out, GicModel::new_in(tables, allocator)),
            "memory" | "domain" => {
                print_ranges(out, MemoryAffinities::new_in(tables, allocator), rest);
            }
            "platform" => print_platform(out, tables.platform_info_in(allocator), heap),
            call => print_part(out, tables.platform_info_in(allocator), call, rest),
        }
    }
}

/// Prints the regions of configuration space.
fn print_regions<A: Allocator>(
    out: Out<'_>,
    regions: AcpiResult<PciConfigRegions<A>>,
    heap: Option<&LocalHeap>,
) {
    match regions {
        Ok(regions) => {
            out.list(regions.iter());
            out.list(regions.ecam_ranges());
            held(out, heap);
        }
        Err(refusal) => out.show(&refusal),
    }
}

/// Prints where a function is.
fn print_place<A: Allocator>(
    out: Out<'_>,
    regions: AcpiResult<PciConfigRegions<A>>,
    call: &str,
    place: &str,
) {
    let [_, _, _, high, low, bus, device, number] = number_of(place).to_be_bytes();
    let segment = u16::from_be_bytes([high, low]);
    match regions {
        Ok(regions) if call == "ecam" => {
            out.show(&regions.ecam_address(segment, bus, device, number));
        }
        Ok(regions) => out.show(&regions.physical_address(segment, bus, device, number)),
        Err(refusal) => out.show(&refusal),
    }
}

/// Prints what a platform contains, or the error.
pub(super) fn print_platform<A: Allocator, E: Debug + Drop>(
    out: Out<'_>,
    answer: Result<PlatformInfo<A>, E>,
    heap: Option<&LocalHeap>,
) {
    match answer {
        Ok(platform) => {
            out.spread(&(platform.power_profile, &platform.pm_timer));
            print_model(out, &platform.interrupt_model, &platform.processor_info);
            held(out, heap);
            let_go(platform);
        }
        Err(refusal) => out.show(&refusal),
    }
}

/// Lets a platform go, part by part: the proof of letting it go at once takes long.
fn let_go<A: Allocator>(platform: PlatformInfo<A>) {
    let PlatformInfo {
        interrupt_model: _model,
        processor_info: _processors,
        ..
    } = platform;
}

/// Prints a processor, or what a clone of the platform or of a part of it contains. A platform that fails prints
/// nothing.
fn print_part<A: Allocator + Clone>(
    out: Out<'_>,
    answer: AcpiResult<PlatformInfo<A>>,
    call: &str,
    index: &str,
) {
    if let Ok(platform) = answer {
        match call {
            "clone" => print_platform(out, platform.clone(), None),
            "clone_model" => match platform.interrupt_model.clone() {
                Ok(model) => print_model(out, &model, &None),
                Err(refusal) => out.show(&refusal),
            },
            _ => print_list(out, &platform, call, index),
        }
        let_go(platform);
    }
}

/// Prints a processor, or what a clone of a list contains.
fn print_list<A: Allocator + Clone>(
    out: Out<'_>,
    platform: &PlatformInfo<A>,
    call: &str,
    index: &str,
) {
    let (InterruptModel::Apic(apic), Some(processors)) = (
        &platform.interrupt_model,
        &platform.processor_info,
    ) else {
        return;
    };
    let others = processors.application_processors.as_slice();
    match call {
        "processor" => out.show(&(others.len(), others.get(number_of(index) as usize))),
        "clone_apics" => match apic.clone() {
            Ok(clone) => print_apics(out, &clone),
            Err(refusal) => out.show(&refusal),
        },
        "clone_io_apics" => match apic.io_apics.clone() {
            Ok(clone) => out.show(&("io apics", clone.as_slice())),
            Err(refusal) => out.show(&refusal),
        },
        _ => match processors.clone() {
            Ok(clone) => print_model(out, &InterruptModel::Unknown::<A>, &Some(clone)),
            Err(refusal) => out.show(&refusal),
        },
    }
}
