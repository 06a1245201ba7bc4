//! The questions of a kernel about interrupts and PCI.

use acpi::PciConfigRegions;
use acpi::platform::interrupt::Apic;
use std::alloc::Allocator;

/// The id of the I/O APIC that an ISA interrupt comes to, and its pin there.
pub fn isa_pin<A: Allocator>(apic: &Apic<A>, irq: u8) -> Option<(u8, u32)> {
    let interrupt = apic.isa_interrupt(irq)?;
    let wired = apic.io_apic_for(interrupt.global_system_interrupt)?;
    Some((wired.io_apic.id, wired.pin))
}

/// The physical address of the configuration space of the first function of a device on bus 0.
pub fn device_address<A: Allocator>(regions: &PciConfigRegions<A>, device: u8) -> Option<u64> {
    regions.ecam_address(0, 0, device, 0)
}
