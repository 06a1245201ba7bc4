//! Made by scripts/readings: records, as their definitions in specs/ read them from bytes.
ghost use Rattle.std.proofs.Common.{lit≤};
ghost use Rattle.acpi_base.specs.Spcr.{spcr_at};
ghost use Rattle.acpi_bytes.specs.declared.signature.TheConstants.Signature.{SPCR};

use super::{SdtHeader, Spcr};
use crate::bytes::{field, filled_in, u8_in, u16_in, u32_in};
use crate::{PhysicalRecord, SdtTable, Signature};

impl PhysicalRecord for Spcr {
    const MIN_LENGTH: usize = 80;

    ghost MIN_LENGTH = { 80 };

    ghost reading = { spcr_at };

    #[tactic(auto, unfolding(crate::specs::Spcr::spcr_at))]
    fn read(bytes: &[u8]) -> Self {
        Spcr {
            header: SdtHeader::read(bytes),
            interface_type: u8_in(bytes, 36), // Interface Type
            base_address: filled_in(bytes, 40), // Base Address
            interrupt_type: u8_in(bytes, 52), // Interrupt Type
            irq: u8_in(bytes, 53), // IRQ
            global_system_interrupt: u32_in(bytes, 54), // Global System Interrupt
            configured_baud_rate: u8_in(bytes, 58), // Configured Baud Rate
            parity: u8_in(bytes, 59), // Parity
            stop_bits: u8_in(bytes, 60), // Stop Bits
            flow_control: u8_in(bytes, 61), // Flow Control
            terminal_type: u8_in(bytes, 62), // Terminal Type
            language: u8_in(bytes, 63), // Language
            pci_device_id: u16_in(bytes, 64), // PCI Device ID
            pci_vendor_id: u16_in(bytes, 66), // PCI Vendor ID
            pci_bus_number: u8_in(bytes, 68), // PCI Bus Number
            pci_device_number: u8_in(bytes, 69), // PCI Device Number
            pci_function_number: u8_in(bytes, 70), // PCI Function Number
            pci_flags: u32_in(bytes, 71), // PCI Flags
            pci_segment: u8_in(bytes, 75), // PCI Segment
            uart_clock_frequency: u32_in(bytes, 76), // UART Clock Frequency
            precise_baud_rate: field(bytes, 80, 4) as u32, // Precise Baud Rate
            namespace_length: field(bytes, 84, 2) as u16, // NamespaceStringLength
            namespace_offset: field(bytes, 86, 2) as u16, // NamespaceStringOffset
        }
    }
}

impl SdtTable for Spcr {
    const NAME: Signature = Signature::SPCR;

    ghost NAME = { SPCR };

    #[tactic(auto, unfolding(crate::specs::Spcr::spcr_at))]
    fn sdt_header(&self) -> &SdtHeader {
        &self.header
    }

    ghost least = { lit≤ tt };
}
