//! Made by scripts/readings: records, as their definitions in specs/ read them from bytes.
ghost use Rattle.acpi_base.specs.MadtEntries.{gic_msi_frame_at, gic_redistributor_at, gic_translation_service_at, gicc_at, gicd_at};

use super::{
    EntryHeader, ExtendedField, GicInterruptTranslationServiceEntry, GicMsiFrameEntry,
    GicRedistributorEntry, GiccEntry, GicdEntry,
};
use crate::PhysicalRecord;
use crate::bytes::{field, field_in, u8_in, u16_in, u32_in};

impl PhysicalRecord for GiccEntry {
    const MIN_LENGTH: usize = 76;

    ghost MIN_LENGTH = { 76 };

    ghost reading = { gicc_at };

    fn read(bytes: &[u8]) -> Self {
        GiccEntry {
            header: EntryHeader::read(bytes),
            cpu_interface_number: u32_in(bytes, 4), // CPU Interface Number
            processor_uid: u32_in(bytes, 8), // ACPI Processor UID
            flags: u32_in(bytes, 12), // Flags (GICC CPU Interface Flags)
            parking_protocol_version: u32_in(bytes, 16), // Parking Protocol Version
            performance_interrupt_gsiv: u32_in(bytes, 20), // Performance Interrupt GSIV
            parked_address: field_in(bytes, 24, 8), // Parked Address
            gic_registers_address: field_in(bytes, 32, 8), // Physical Base Address
            gic_virtual_registers_address: field_in(bytes, 40, 8), // GICV
            gic_hypervisor_registers_address: field_in(bytes, 48, 8), // GICH
            vgic_maintenance_interrupt: u32_in(bytes, 56), // VGIC Maintenance interrupt
            gicr_base_address: field_in(bytes, 60, 8), // GICR Base Address
            mpidr: field_in(bytes, 68, 8), // MPIDR
            processor_power_efficiency_class: field(bytes, 76, 1) as u8, // Processor Power Efficiency Class
            spe_overflow_interrupt: field(bytes, 78, 2) as u16, // SPE overflow Interrupt
            trbe_interrupt: ExtendedField::read(bytes, 80), // TRBE Interrupt, since ACPI 6.5
        }
    }
}

impl PhysicalRecord for GicdEntry {
    const MIN_LENGTH: usize = 24;

    ghost MIN_LENGTH = { 24 };

    ghost reading = { gicd_at };

    fn read(bytes: &[u8]) -> Self {
        GicdEntry {
            header: EntryHeader::read(bytes),
            gic_id: u32_in(bytes, 4), // GIC ID
            physical_base_address: field_in(bytes, 8, 8), // Physical Base Address
            system_vector_base: u32_in(bytes, 16), // System Vector Base
            gic_version: u8_in(bytes, 20), // GIC version
        }
    }
}

impl PhysicalRecord for GicMsiFrameEntry {
    const MIN_LENGTH: usize = 24;

    ghost MIN_LENGTH = { 24 };

    ghost reading = { gic_msi_frame_at };

    fn read(bytes: &[u8]) -> Self {
        GicMsiFrameEntry {
            header: EntryHeader::read(bytes),
            frame_id: u32_in(bytes, 4), // GIC MSI Frame ID
            physical_base_address: field_in(bytes, 8, 8), // Physical Base Address
            flags: u32_in(bytes, 16), // Flags (GIC MSI Frame Flags)
            spi_count: u16_in(bytes, 20), // SPI Count
            spi_base: u16_in(bytes, 22), // SPI Base
        }
    }
}

impl PhysicalRecord for GicRedistributorEntry {
    const MIN_LENGTH: usize = 16;

    ghost MIN_LENGTH = { 16 };

    ghost reading = { gic_redistributor_at };

    fn read(bytes: &[u8]) -> Self {
        GicRedistributorEntry {
            header: EntryHeader::read(bytes),
            discovery_range_base_address: field_in(bytes, 4, 8), // Discovery Range Base Address
            discovery_range_length: u32_in(bytes, 12), // Discovery Range Length
        }
    }
}

impl PhysicalRecord for GicInterruptTranslationServiceEntry {
    const MIN_LENGTH: usize = 20;

    ghost MIN_LENGTH = { 20 };

    ghost reading = { gic_translation_service_at };

    fn read(bytes: &[u8]) -> Self {
        GicInterruptTranslationServiceEntry {
            header: EntryHeader::read(bytes),
            id: u32_in(bytes, 4), // GIC ITS ID
            physical_base_address: field_in(bytes, 8, 8), // Physical Base Address
        }
    }
}
