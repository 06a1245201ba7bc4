//! Made by scripts/records: what C sees of the fixed hardware, the serial console and configuration space.
//! `include/zacpi.h` has what each field is.

use crate::records::Register;

/// `struct zacpi_gpe_block`.
#[repr(C)]
#[derive(Clone, Copy)]
pub struct GpeBlock {
    pub address: u64,
    pub space: u8,
    pub byte_length: u8,
    pub present: u8,
    pub reserved: [u8; 5],
}

/// `struct zacpi_fixed_hardware`.
#[repr(C)]
#[derive(Clone, Copy)]
pub struct FixedHardware {
    pub facs_address: u64,
    pub dsdt_address: u64,
    pub pm1a_event: Register,
    pub pm1b_event: Register,
    pub pm1a_control: Register,
    pub pm1b_control: Register,
    pub pm2_control: Register,
    pub pm_timer: Register,
    pub gpe0: Register,
    pub gpe1: Register,
    pub reset: Register,
    pub sleep_control: Register,
    pub sleep_status: Register,
    pub gpe0_block: GpeBlock,
    pub gpe1_block: GpeBlock,
    pub smi_command: u32,
    pub flags: u32,
    pub sci_interrupt: u16,
    pub x86_boot_flags: u16,
    pub arm_boot_flags: u16,
    pub c2_latency: u16,
    pub c3_latency: u16,
    pub flush_size: u16,
    pub flush_stride: u16,
    pub power_profile: u8,
    pub acpi_enable: u8,
    pub acpi_disable: u8,
    pub s4bios_request: u8,
    pub pstate_control: u8,
    pub c_state_control: u8,
    pub gpe1_base: u8,
    pub duty_offset: u8,
    pub duty_width: u8,
    pub day_alarm: u8,
    pub month_alarm: u8,
    pub century: u8,
    pub reset_value: u8,
    pub revision: u8,
    pub minor_revision: u8,
    pub reserved: [u8; 3],
    pub hypervisor_id: u64,
}

/// `struct zacpi_console`.
#[repr(C)]
#[derive(Clone, Copy)]
pub struct Console {
    pub base: Register,
    pub baud_rate: u32,
    pub global_system_interrupt: u32,
    pub clock_frequency: u32,
    pub pci_flags: u32,
    pub pci_device_id: u16,
    pub pci_vendor_id: u16,
    pub interface_type: u8,
    pub irq: u8,
    pub has_irq: u8,
    pub has_global_system_interrupt: u8,
    pub has_baud_rate: u8,
    pub parity: u8,
    pub stop_bits: u8,
    pub pci_segment: u8,
    pub pci_bus: u8,
    pub pci_device: u8,
    pub pci_function: u8,
    pub reserved: u8,
}

/// `struct zacpi_ecam_range`.
#[repr(C)]
#[derive(Clone, Copy)]
pub struct EcamRange {
    pub address: u64,
    pub length: u64,
    pub segment_group: u16,
    pub present: u8,
    pub reserved: [u8; 5],
}
