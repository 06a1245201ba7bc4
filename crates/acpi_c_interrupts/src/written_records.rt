//! Made by scripts/records: what C sees of the tables of interrupts and timers that are to be written.
//! `include/zacpi.h` has what each field is.

use crate::apics::records::{InterruptSourceOverride, IoApic, NmiLine, NmiSource, Processor};
use crate::arm::records::{
    ArmTimers, GicCpuInterface, GicDistributor, GicMsiFrame, GicTranslationService, GtFrame,
    Watchdog,
};
use acpi_c_lib::records::Range;

/// `struct zacpi_madt_contents`.
#[repr(C)]
#[derive(Clone, Copy)]
pub struct MadtContents<'a> {
    pub processors: &'a [Processor],
    pub io_apics: &'a [IoApic],
    pub overrides: &'a [InterruptSourceOverride],
    pub nmi_sources: &'a [NmiSource],
    pub nmi_lines: &'a [NmiLine],
    pub local_apic_address: u64,
    pub wakeup_mailbox: u64,
    pub also_has_8259: u8,
    pub has_wakeup_mailbox: u8,
}

/// `struct zacpi_gic_contents`.
#[repr(C)]
#[derive(Clone, Copy)]
pub struct GicContents<'a> {
    pub distributor: GicDistributor,
    pub cpu_interfaces: &'a [GicCpuInterface],
    pub redistributors: &'a [Range],
    pub translation_services: &'a [GicTranslationService],
    pub msi_frames: &'a [GicMsiFrame],
}

/// `struct zacpi_platform_timer`.
#[repr(C)]
#[derive(Clone, Copy)]
pub struct PlatformTimer<'a> {
    pub kind: u32,
    pub block_address: u64,
    pub frames: &'a [GtFrame],
    pub watchdog: Watchdog,
}

/// `struct zacpi_gtdt_contents`.
#[repr(C)]
#[derive(Clone, Copy)]
pub struct GtdtContents<'a> {
    pub timers: ArmTimers,
    pub platform_timers: &'a [PlatformTimer<'a>],
}
