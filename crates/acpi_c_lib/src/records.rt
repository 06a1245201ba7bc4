//! Made by scripts/records: what C sees of memory and tables.
//! `include/zacpi.h` has what each field is.

use crate::regions::Region;

/// `struct zacpi_range`.
#[repr(C)]
#[derive(Clone, Copy)]
pub struct Range {
    pub address: u64,
    pub length: u64,
}

/// `struct zacpi_source`.
#[repr(C)]
#[derive(Clone, Copy)]
pub struct Source<'a> {
    pub regions: &'a [Region<'a>],
    pub address: u64,
    pub start: u32,
    pub accept: u32,
}

/// `struct zacpi_place`.
#[repr(C)]
#[derive(Clone, Copy)]
pub struct Place {
    pub region: usize,
    pub offset: usize,
}

/// `struct zacpi_signature`.
#[repr(C)]
#[derive(Clone, Copy)]
pub struct Signature {
    pub letters: [u8; 4],
}

/// `struct zacpi_root`.
#[repr(C)]
#[derive(Clone, Copy)]
pub struct Root {
    pub address: u64,
    pub length: u32,
    pub revision: u8,
    pub pointer_width: u8,
    pub reserved_1: [u8; 2],
    pub rsdp_address: u64,
    pub rsdp_length: u32,
    pub reserved_2: [u8; 4],
}

/// `struct zacpi_rsdp`.
#[repr(C)]
#[derive(Clone, Copy)]
pub struct Rsdp {
    pub address: u64,
    pub xsdt_address: u64,
    pub rsdt_address: u32,
    pub length: u32,
    pub revision: u8,
    pub oem_id: [u8; 6],
    pub reserved: u8,
}

/// `struct zacpi_table`.
#[repr(C)]
#[derive(Clone, Copy)]
pub struct Table {
    pub address: u64,
    pub length: u32,
    pub signature: Signature,
    pub revision: u8,
    pub oem_id: [u8; 6],
    pub oem_table_id: [u8; 8],
    pub reserved_1: u8,
    pub oem_revision: u32,
    pub creator_id: [u8; 4],
    pub creator_revision: u32,
    pub reserved_2: [u8; 4],
}

/// `struct zacpi_member`.
#[repr(C)]
#[derive(Clone, Copy)]
pub struct Member {
    pub table: Table,
    pub status: u32,
    pub has_header: u8,
    pub reserved: [u8; 3],
}

/// `struct zacpi_fault`.
#[repr(C)]
#[derive(Clone, Copy)]
pub struct Fault {
    pub address: u64,
    pub status: u32,
    pub accepted: u8,
    pub reserved: [u8; 3],
}

/// `struct zacpi_walk`.
#[repr(C)]
#[derive(Clone, Copy)]
pub struct Walk {
    pub first: u32,
    pub type_offset: u8,
    pub type_width: u8,
    pub length_offset: u8,
    pub length_width: u8,
}

/// `struct zacpi_entry`.
#[repr(C)]
#[derive(Clone, Copy)]
pub struct Entry {
    pub address: u64,
    pub entry_type: u32,
    pub length: u32,
}

/// `struct zacpi_aml_table`.
#[repr(C)]
#[derive(Clone, Copy)]
pub struct AmlTable {
    pub address: u64,
    pub length: u32,
    pub revision: u8,
    pub reserved: [u8; 3],
    pub table_address: u64,
}

/// `struct zacpi_facs`.
#[repr(C)]
#[derive(Clone, Copy)]
pub struct Facs {
    pub address: u64,
    pub waking_vector_64: u64,
    pub length: u32,
    pub hardware_signature: u32,
    pub waking_vector: u32,
    pub flags: u32,
    pub version: u8,
    pub reserved: [u8; 7],
}
