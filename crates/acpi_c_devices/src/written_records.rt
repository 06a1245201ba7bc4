//! Made by scripts/records: what C sees of the tables of devices and domains that are to be written.
//! `include/zacpi.h` has what each field is.

use crate::fixed::records::Console;
use crate::numa::records::MemoryAffinity;
use acpi_table_writer::{ApicDomain, GiccDomain};

/// `struct zacpi_srat_contents`.
#[repr(C)]
#[derive(Clone, Copy)]
pub struct SratContents<'a> {
    pub apics: &'a [ApicDomain],
    pub giccs: &'a [GiccDomain],
    pub ranges: &'a [MemoryAffinity],
}

/// `struct zacpi_spcr_contents`.
#[repr(C)]
#[derive(Clone, Copy)]
pub struct SpcrContents {
    pub console: Console,
    pub interrupt_controllers: u8,
    pub flow_control: u8,
    pub terminal_type: u8,
}

/// `struct zacpi_facs_contents`.
#[repr(C)]
#[derive(Clone, Copy)]
pub struct FacsContents {
    pub waking_vector_64: u64,
    pub hardware_signature: u32,
    pub waking_vector: u32,
    pub supports_s4bios: u8,
    pub supports_64_bit_wake: u8,
}
