//! What models of a machine's interrupts and memory contain.

use crate::out::Out;
use acpi::AcpiResult;
use acpi::platform::ProcessorInfo;
use acpi::platform::interrupt::{Apic, InterruptModel};
use acpi_arm::gic::GicModel;
use acpi_cli::parse_address;
use acpi_numa::{MemoryAffinities, NumaResult};
use std::alloc::Allocator;

/// Prints an interrupt model and the processors.
pub(crate) fn print_model<A: Allocator>(
    out: Out<'_>,
    model: &InterruptModel<A>,
    processors: &Option<ProcessorInfo<A>>,
) {
    match model {
        InterruptModel::Apic(apic) => print_apics(out, apic),
        _ => out.print(&"unknown model"),
    }
    if let Some(processors) = processors {
        out.spread(&(
            ("boot", processors.boot_processor),
            ("others", processors.application_processors.as_slice()),
        ));
    }
}

/// Prints the APICs of a model.
pub(crate) fn print_apics<A: Allocator>(out: Out<'_>, apic: &Apic<A>) {
    out.spread(&(
        ("local apics", apic.local_apic_address),
        ("legacy pics", apic.also_has_legacy_pics),
        ("io apics", apic.io_apics.as_slice()),
        ("nmi lines", apic.local_apic_nmi_lines.as_slice()),
        ("overrides", apic.interrupt_source_overrides.as_slice()),
        ("nmi sources", apic.nmi_sources.as_slice()),
    ));
}

/// Prints a GIC.
pub(crate) fn print_gic<A: Allocator>(out: Out<'_>, gic: AcpiResult<Option<GicModel<A>>>) {
    match gic {
        Ok(Some(gic)) => out.spread(&(
            gic.distributor,
            ("interfaces", gic.cpu_interfaces.as_slice()),
            ("redistributors", gic.redistributors.as_slice()),
            ("services", gic.translation_services.as_slice()),
            ("frames", gic.msi_frames.as_slice()),
        )),
        Ok(None) => out.print(&"None"),
        Err(refusal) => out.show(&refusal),
    }
}

/// Prints the ranges of memory in domains, or the domain of an address.
pub(crate) fn print_ranges<A: Allocator>(
    out: Out<'_>,
    memory: NumaResult<MemoryAffinities<A>>,
    address: &str,
) {
    match memory {
        Ok(memory) => match parse_address(address) {
            Some(address) => out.show(&memory.domain_of(address)),
            None => out.show(&("ranges", memory.ranges())),
        },
        Err(refusal) => {
            out.show(&refusal);
            out.print(&refusal);
        }
    }
}
