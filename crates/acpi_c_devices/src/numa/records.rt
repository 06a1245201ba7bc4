//! Made by scripts/records: what C sees of domains and of the distances between localities.
//! `include/zacpi.h` has what each field is.

/// `struct zacpi_memory_affinity`.
#[repr(C)]
#[derive(Clone, Copy)]
pub struct MemoryAffinity {
    pub address: u64,
    pub length: u64,
    pub domain: u32,
    pub is_hot_pluggable: u8,
    pub is_non_volatile: u8,
    pub reserved: [u8; 2],
}

/// `struct zacpi_processor_affinity`.
#[repr(C)]
#[derive(Clone, Copy)]
pub struct ProcessorAffinity {
    pub id: u32,
    pub domain: u32,
    pub clock_domain: u32,
    pub entry_type: u8,
    pub reserved: [u8; 3],
}

/// `struct zacpi_generic_initiator`.
#[repr(C)]
#[derive(Clone, Copy)]
pub struct GenericInitiator {
    pub domain: u32,
    pub is_architectural: u8,
    pub handle_type: u8,
    pub handle: [u8; 16],
    pub reserved: [u8; 2],
}

/// `struct zacpi_its_affinity`.
#[repr(C)]
#[derive(Clone, Copy)]
pub struct ItsAffinity {
    pub domain: u32,
    pub its_id: u32,
}

/// `struct zacpi_localities`.
#[repr(C)]
#[derive(Clone, Copy)]
pub struct Localities {
    pub localities: u64,
    pub is_sane: u8,
    pub reserved: [u8; 7],
}
