//! Made by scripts/records: what C sees of registers and devices.
//! `include/zacpi.h` has what each field is.

/// `struct zacpi_generic_address`.
#[repr(C)]
#[derive(Clone, Copy)]
pub struct GenericAddress {
    pub address: u64,
    pub space: u8,
    pub bit_width: u8,
    pub bit_offset: u8,
    pub access_size: u8,
    pub reserved: [u8; 4],
}

/// `struct zacpi_register`.
#[repr(C)]
#[derive(Clone, Copy)]
pub struct Register {
    pub at: GenericAddress,
    pub present: u8,
    pub reserved: [u8; 7],
}

/// `struct zacpi_pm_timer`.
#[repr(C)]
#[derive(Clone, Copy)]
pub struct PmTimer {
    pub base: GenericAddress,
    pub present: u8,
    pub is_32_bit: u8,
    pub reserved: [u8; 6],
}

/// `struct zacpi_hpet_info`.
#[repr(C)]
#[derive(Clone, Copy)]
pub struct HpetInfo {
    pub base_address: u64,
    pub event_timer_block_id: u32,
    pub clock_tick_unit: u16,
    pub number: u8,
    pub page_protection: u8,
}

/// `struct zacpi_boot_graphic`.
#[repr(C)]
#[derive(Clone, Copy)]
pub struct BootGraphic {
    pub address: u64,
    pub x: u32,
    pub y: u32,
    pub orientation: u16,
    pub displayed: u8,
    pub image_type: u8,
    pub reserved: [u8; 4],
}

/// `struct zacpi_pci_region`.
#[repr(C)]
#[derive(Clone, Copy)]
pub struct PciRegion {
    pub base_address: u64,
    pub segment_group: u16,
    pub first_bus: u8,
    pub last_bus: u8,
    pub reserved: [u8; 4],
}
