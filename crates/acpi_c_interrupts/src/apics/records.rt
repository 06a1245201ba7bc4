//! Made by scripts/records: what C sees of interrupts and processors of a machine with APICs.
//! `include/zacpi.h` has what each field is.

/// `struct zacpi_interrupt_model`.
#[repr(C)]
#[derive(Clone, Copy)]
pub struct InterruptModel {
    pub local_apic_address: u64,
    pub io_apics: usize,
    pub overrides: usize,
    pub nmi_sources: usize,
    pub nmi_lines: usize,
    pub processors: usize,
    pub known: u8,
    pub also_has_8259: u8,
    pub reserved: [u8; 6],
}

/// `struct zacpi_local_apic`.
#[repr(C)]
#[derive(Clone, Copy)]
pub struct LocalApic {
    pub address: u64,
    pub also_has_8259: u8,
    pub reserved: [u8; 7],
}

/// `struct zacpi_io_apic`.
#[repr(C)]
#[derive(Clone, Copy)]
pub struct IoApic {
    pub address: u32,
    pub global_system_interrupt_base: u32,
    pub id: u8,
    pub reserved: [u8; 3],
}

/// `struct zacpi_interrupt_source_override`.
#[repr(C)]
#[derive(Clone, Copy)]
pub struct InterruptSourceOverride {
    pub global_system_interrupt: u32,
    pub isa_source: u8,
    pub polarity: u8,
    pub trigger: u8,
    pub bus: u8,
}

/// `struct zacpi_nmi_source`.
#[repr(C)]
#[derive(Clone, Copy)]
pub struct NmiSource {
    pub global_system_interrupt: u32,
    pub polarity: u8,
    pub trigger: u8,
    pub reserved: [u8; 2],
}

/// `struct zacpi_nmi_line`.
#[repr(C)]
#[derive(Clone, Copy)]
pub struct NmiLine {
    pub processor_uid: u32,
    pub of_all: u8,
    pub lint: u8,
    pub polarity: u8,
    pub trigger: u8,
}

/// `struct zacpi_processor`.
#[repr(C)]
#[derive(Clone, Copy)]
pub struct Processor {
    pub uid: u32,
    pub local_apic_id: u32,
    pub state: u8,
    pub is_boot: u8,
    pub is_online_capable: u8,
    pub is_x2apic: u8,
}

/// `struct zacpi_platform_lists`.
#[repr(C)]
#[derive(Drop)]
pub struct PlatformLists<'a> {
    pub processors: &'a mut [Processor],
    pub processors_count: usize,
    pub io_apics: &'a mut [IoApic],
    pub io_apics_count: usize,
    pub overrides: &'a mut [InterruptSourceOverride],
    pub overrides_count: usize,
    pub nmi_sources: &'a mut [NmiSource],
    pub nmi_sources_count: usize,
    pub nmi_lines: &'a mut [NmiLine],
    pub nmi_lines_count: usize,
}

/// `struct zacpi_interrupt`.
#[repr(C)]
#[derive(Clone, Copy)]
pub struct Interrupt {
    pub global_system_interrupt: u32,
    pub polarity: u8,
    pub trigger: u8,
    pub reserved: [u8; 2],
}

/// `struct zacpi_io_apic_pin`.
#[repr(C)]
#[derive(Clone, Copy)]
pub struct IoApicPin {
    pub io_apic: IoApic,
    pub pin: u32,
}

/// `struct zacpi_isa_route`.
#[repr(C)]
#[derive(Clone, Copy)]
pub struct IsaRoute {
    pub interrupt: Interrupt,
    pub pin: IoApicPin,
    pub present: u8,
    pub has_pin: u8,
    pub reserved: [u8; 2],
}

/// `struct zacpi_isa_interrupts`.
#[repr(C)]
#[derive(Clone, Copy)]
pub struct IsaInterrupts {
    pub routes: [IsaRoute; 16],
}
