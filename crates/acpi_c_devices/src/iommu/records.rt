//! Made by scripts/records: what C sees of the units that remap devices' accesses to memory.
//! `include/zacpi.h` has what each field is.

pub use acpi_iommu::Hop;

/// `struct zacpi_dmar_flags`.
#[repr(C)]
#[derive(Clone, Copy)]
pub struct DmarFlags {
    pub address_bits: u16,
    pub flags: u8,
    pub reserved: u8,
}

/// `struct zacpi_dmar_unit`.
#[repr(C)]
#[derive(Clone, Copy)]
pub struct DmarUnit {
    pub register_base: u64,
    pub register_bytes: u64,
    pub segment: u16,
    pub includes_pci_all: u8,
    pub flags: u8,
    pub size: u8,
    pub reserved: [u8; 3],
}

/// `struct zacpi_dmar_scope`.
#[repr(C)]
#[derive(Clone, Copy)]
pub struct DmarScope {
    pub path_length: usize,
    pub scope_type: u8,
    pub flags: u8,
    pub enumeration_id: u8,
    pub bus: u8,
    pub path: [Hop; 16],
    pub reserved: [u8; 4],
}

/// `struct zacpi_dmar_source`.
#[repr(C)]
#[derive(Clone, Copy)]
pub struct DmarSource {
    pub unit: DmarUnit,
    pub bus: u8,
    pub hop: Hop,
    pub has_hop: u8,
    pub reserved: [u8; 4],
}

/// `struct zacpi_dmar_reserved`.
#[repr(C)]
#[derive(Clone, Copy)]
pub struct DmarReserved {
    pub base: u64,
    pub limit: u64,
    pub segment: u16,
    pub reserved: [u8; 6],
}

/// `struct zacpi_dmar_root_ports`.
#[repr(C)]
#[derive(Clone, Copy)]
pub struct DmarRootPorts {
    pub segment: u16,
    pub includes_all: u8,
    pub flags: u8,
}

/// `struct zacpi_dmar_affinity`.
#[repr(C)]
#[derive(Clone, Copy)]
pub struct DmarAffinity {
    pub register_base: u64,
    pub domain: u32,
    pub reserved: [u8; 4],
}

/// `struct zacpi_ivrs_unit`.
#[repr(C)]
#[derive(Clone, Copy)]
pub struct IvrsUnit {
    pub base: u64,
    pub extended_features: u64,
    pub features: u32,
    pub segment: u16,
    pub device_id: u16,
    pub capability_offset: u16,
    pub info: u16,
    pub block_type: u8,
    pub flags: u8,
    pub has_extended_features: u8,
    pub reserved: u8,
}

/// `struct zacpi_ivrs_device`.
#[repr(C)]
#[derive(Clone, Copy)]
pub struct IvrsDevice {
    pub unit: IvrsUnit,
    pub source_id: u16,
    pub settings: u8,
    pub reserved: [u8; 5],
}

/// `struct zacpi_ivrs_memory`.
#[repr(C)]
#[derive(Clone, Copy)]
pub struct IvrsMemory {
    pub start: u64,
    pub length: u64,
    pub device_id: u16,
    pub auxiliary: u16,
    pub block_type: u8,
    pub flags: u8,
    pub reserved: [u8; 2],
}

/// `struct zacpi_ivrs_entry`.
#[repr(C)]
#[derive(Clone, Copy)]
pub struct IvrsEntry {
    pub unique_id_length: usize,
    pub extended_settings: u32,
    pub first: u16,
    pub last: u16,
    pub source_id: u16,
    pub entry_type: u8,
    pub settings: u8,
    pub handle: u8,
    pub variety: u8,
    pub hardware_id: [u8; 8],
    pub compatible_id: [u8; 8],
    pub unique_id_format: u8,
    pub unique_id: [u8; 32],
    pub reserved: u8,
}
