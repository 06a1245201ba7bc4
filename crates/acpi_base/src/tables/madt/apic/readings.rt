//! Made by scripts/readings: records, as their definitions in specs/ read them from bytes.
ghost use Rattle.acpi_base.specs.MadtEntries.{interrupt_source_override_at, io_apic_at, local_apic_address_override_at, local_apic_at, local_apic_nmi_at, local_x2apic_at, nmi_source_at, x2apic_nmi_at};

use super::{
    EntryHeader, InterruptSourceOverrideEntry, IoApicEntry, LocalApicAddressOverrideEntry,
    LocalApicEntry, LocalApicNmiEntry, LocalX2ApicEntry, NmiSourceEntry, X2ApicNmiEntry,
};
use crate::PhysicalRecord;
use crate::bytes::{field_in, u8_in, u16_in, u32_in};

impl PhysicalRecord for LocalApicEntry {
    const MIN_LENGTH: usize = 8;

    ghost MIN_LENGTH = { 8 };

    ghost reading = { local_apic_at };

    fn read(bytes: &[u8]) -> Self {
        LocalApicEntry {
            header: EntryHeader::read(bytes),
            processor_id: u8_in(bytes, 2), // ACPI Processor UID
            apic_id: u8_in(bytes, 3), // APIC ID
            flags: u32_in(bytes, 4), // Flags (Local APIC Flags)
        }
    }
}

impl PhysicalRecord for IoApicEntry {
    const MIN_LENGTH: usize = 12;

    ghost MIN_LENGTH = { 12 };

    ghost reading = { io_apic_at };

    fn read(bytes: &[u8]) -> Self {
        IoApicEntry {
            header: EntryHeader::read(bytes),
            io_apic_id: u8_in(bytes, 2), // I/O APIC ID
            io_apic_address: u32_in(bytes, 4), // I/O APIC Address
            global_system_interrupt_base: u32_in(bytes, 8), // Global System Interrupt Base
        }
    }
}

impl PhysicalRecord for InterruptSourceOverrideEntry {
    const MIN_LENGTH: usize = 10;

    ghost MIN_LENGTH = { 10 };

    ghost reading = { interrupt_source_override_at };

    fn read(bytes: &[u8]) -> Self {
        InterruptSourceOverrideEntry {
            header: EntryHeader::read(bytes),
            bus: u8_in(bytes, 2), // Bus
            irq: u8_in(bytes, 3), // Source
            global_system_interrupt: u32_in(bytes, 4), // Global System Interrupt
            flags: u16_in(bytes, 8), // Flags (MPS INTI Flags)
        }
    }
}

impl PhysicalRecord for NmiSourceEntry {
    const MIN_LENGTH: usize = 8;

    ghost MIN_LENGTH = { 8 };

    ghost reading = { nmi_source_at };

    fn read(bytes: &[u8]) -> Self {
        NmiSourceEntry {
            header: EntryHeader::read(bytes),
            flags: u16_in(bytes, 2), // Flags (MPS INTI Flags)
            global_system_interrupt: u32_in(bytes, 4), // Global System Interrupt
        }
    }
}

impl PhysicalRecord for LocalApicNmiEntry {
    const MIN_LENGTH: usize = 6;

    ghost MIN_LENGTH = { 6 };

    ghost reading = { local_apic_nmi_at };

    fn read(bytes: &[u8]) -> Self {
        LocalApicNmiEntry {
            header: EntryHeader::read(bytes),
            processor_id: u8_in(bytes, 2), // ACPI Processor UID
            flags: u16_in(bytes, 3), // Flags (MPS INTI Flags)
            nmi_line: u8_in(bytes, 5), // Local APIC LINT#
        }
    }
}

impl PhysicalRecord for LocalApicAddressOverrideEntry {
    const MIN_LENGTH: usize = 12;

    ghost MIN_LENGTH = { 12 };

    ghost reading = { local_apic_address_override_at };

    fn read(bytes: &[u8]) -> Self {
        LocalApicAddressOverrideEntry {
            header: EntryHeader::read(bytes),
            local_apic_address: field_in(bytes, 4, 8), // Local APIC Address
        }
    }
}

impl PhysicalRecord for LocalX2ApicEntry {
    const MIN_LENGTH: usize = 16;

    ghost MIN_LENGTH = { 16 };

    ghost reading = { local_x2apic_at };

    fn read(bytes: &[u8]) -> Self {
        LocalX2ApicEntry {
            header: EntryHeader::read(bytes),
            x2apic_id: u32_in(bytes, 4), // X2APIC ID
            flags: u32_in(bytes, 8), // Flags (Local APIC Flags)
            processor_uid: u32_in(bytes, 12), // ACPI Processor UID
        }
    }
}

impl PhysicalRecord for X2ApicNmiEntry {
    const MIN_LENGTH: usize = 12;

    ghost MIN_LENGTH = { 12 };

    ghost reading = { x2apic_nmi_at };

    fn read(bytes: &[u8]) -> Self {
        X2ApicNmiEntry {
            header: EntryHeader::read(bytes),
            flags: u16_in(bytes, 2), // Flags (MPS INTI Flags)
            processor_uid: u32_in(bytes, 4), // ACPI Processor UID
            nmi_line: u8_in(bytes, 8), // Local x2APIC LINT#
        }
    }
}
