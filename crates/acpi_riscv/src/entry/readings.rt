//! Made by scripts/readings: records, as their definitions in specs/ read them from bytes.
ghost use Rattle.std.specs.Prelude.{◌≡◌};
ghost use Rattle.acpi_riscv.specs.Entries.{aplic_at, imsic_at, plic_at, rintc_at};

use super::{Aplic, Imsic, Plic, Rintc};
use acpi_base::bytes::field;

pub(crate) fn rintc_at(bytes: &[u8]) -> Rintc
    ensures { result ≡ rintc_at bytes.now }
{
    Rintc {
        version: field(bytes, 2, 1) as u8, // Version
        flags: field(bytes, 4, 4) as u32, // Flags
        hart_id: field(bytes, 8, 8), // Hart ID
        processor_uid: field(bytes, 16, 4) as u32, // ACPI Processor UID
        external_interrupt_controller_id: field(bytes, 20, 4) as u32, // External Interrupt Controller ID
        imsic_address: field(bytes, 24, 8), // IMSIC Base Address
        imsic_size: field(bytes, 32, 4) as u32, // IMSIC Size
        reserved: [0; 7],
    }
}

pub(crate) fn imsic_at(bytes: &[u8]) -> Imsic
    ensures { result ≡ imsic_at bytes.now }
{
    Imsic {
        version: field(bytes, 2, 1) as u8, // Version
        flags: field(bytes, 4, 4) as u32, // Flags
        supervisor_identities: field(bytes, 8, 2) as u16, // Number of Supervisor Mode Interrupt Identities
        guest_identities: field(bytes, 10, 2) as u16, // Number of Guest Mode Interrupt Identities
        guest_index_bits: field(bytes, 12, 1) as u8, // Guest Index Bits
        hart_index_bits: field(bytes, 13, 1) as u8, // Hart Index Bits
        group_index_bits: field(bytes, 14, 1) as u8, // Group Index Bits
        group_index_shift: field(bytes, 15, 1) as u8, // Group Index Shift
        reserved: [0; 3],
    }
}

pub(crate) fn aplic_at(bytes: &[u8]) -> Aplic
    ensures { result ≡ aplic_at bytes.now }
{
    Aplic {
        version: field(bytes, 2, 1) as u8, // Version
        id: field(bytes, 3, 1) as u8, // APLIC ID
        flags: field(bytes, 4, 4) as u32, // Flags
        hardware_id: field(bytes, 8, 8), // Hardware ID
        idc_count: field(bytes, 16, 2) as u16, // Number of IDCs
        source_count: field(bytes, 18, 2) as u16, // Total External Interrupt Sources Supported
        global_system_interrupt_base: field(bytes, 20, 4) as u32, // Global System Interrupt Base
        address: field(bytes, 24, 8), // APLIC Address
        size: field(bytes, 32, 4) as u32, // APLIC Size
        reserved: [0; 6],
    }
}

pub(crate) fn plic_at(bytes: &[u8]) -> Plic
    ensures { result ≡ plic_at bytes.now }
{
    Plic {
        version: field(bytes, 2, 1) as u8, // Version
        id: field(bytes, 3, 1) as u8, // PLIC ID
        hardware_id: field(bytes, 4, 8), // Hardware ID
        source_count: field(bytes, 12, 2) as u16, // Total External Interrupt Sources Supported
        max_priority: field(bytes, 14, 2) as u16, // Max Priority
        flags: field(bytes, 16, 4) as u32, // Flags
        size: field(bytes, 20, 4) as u32, // PLIC Size
        address: field(bytes, 24, 8), // PLIC Address
        global_system_interrupt_base: field(bytes, 32, 4) as u32, // Global System Interrupt Vector Base
        reserved: [0; 6],
    }
}
