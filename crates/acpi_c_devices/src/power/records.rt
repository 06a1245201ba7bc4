//! Made by scripts/records: what C sees of sleep types, and of what to write to sleep, to enable ACPI and to reset.
//! `include/zacpi.h` has what each field is.

use crate::records::Register;

/// `struct zacpi_step`.
#[repr(C)]
#[derive(Clone, Copy)]
pub struct Step {
    pub at: Register,
    pub mask: u32,
    pub value: u32,
    pub width: u8,
    pub kind: u8,
    pub reserved: [u8; 6],
}

/// `struct zacpi_plan`.
#[repr(C)]
#[derive(Clone, Copy)]
pub struct Plan {
    pub steps: [Step; 8],
    pub count: u32,
    pub reserved: [u8; 4],
}

/// `struct zacpi_sleep_types`.
#[repr(C)]
#[derive(Clone, Copy)]
pub struct SleepTypes {
    pub a: u8,
    pub b: u8,
}
