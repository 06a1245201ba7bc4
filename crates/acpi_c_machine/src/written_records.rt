//! Made by scripts/records: what C sees of a machine whose tables are to be written.
//! `include/zacpi.h` has what each field is.

use acpi_c_devices::written_records::FacsContents;
pub use acpi_table_writer::{ApicDomain, GiccDomain, RhctContents, RiscvContents, TableIds};

/// `struct zacpi_aml_contents`.
#[repr(C)]
#[derive(Clone, Copy)]
pub struct AmlContents<'a> {
    pub aml: &'a [u8],
    pub revision: u8,
}

/// `struct zacpi_listed_table`.
#[repr(C)]
#[derive(Clone, Copy)]
pub struct ListedTable<'a> {
    pub bytes: &'a [u8],
}

/// `struct zacpi_machine`.
#[repr(C)]
#[derive(Clone, Copy)]
pub struct Machine<'a> {
    pub ids: TableIds,
    pub tables: &'a [ListedTable<'a>],
    pub dsdts: &'a [AmlContents<'a>],
    pub facs: &'a [FacsContents],
}
