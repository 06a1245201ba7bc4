//! Made by scripts/readings: records, as their definitions in specs/ read them from bytes.
ghost use Rattle.std.proofs.Common.{lit≤};
ghost use Rattle.acpi_base.specs.Mcfg.{mcfg_at, mcfg_entry_at};
ghost use Rattle.acpi_bytes.specs.declared.signature.TheConstants.Signature.{MCFG};

use super::{Mcfg, McfgEntry, SdtHeader};
use crate::bytes::{field_in, u8_in, u16_in};
use crate::{PhysicalRecord, SdtTable, Signature};

impl PhysicalRecord for Mcfg {
    const MIN_LENGTH: usize = 44;

    ghost MIN_LENGTH = { 44 };

    ghost reading = { mcfg_at };

    #[tactic(auto, unfolding(crate::specs::Mcfg::mcfg_at))]
    fn read(bytes: &[u8]) -> Self {
        Mcfg {
            header: SdtHeader::read(bytes),
        }
    }
}

impl SdtTable for Mcfg {
    const NAME: Signature = Signature::MCFG;

    ghost NAME = { MCFG };

    #[tactic(auto, unfolding(crate::specs::Mcfg::mcfg_at))]
    fn sdt_header(&self) -> &SdtHeader {
        &self.header
    }

    ghost least = { lit≤ tt };
}

impl PhysicalRecord for McfgEntry {
    const MIN_LENGTH: usize = 16;

    ghost MIN_LENGTH = { 16 };

    ghost reading = { mcfg_entry_at };

    fn read(bytes: &[u8]) -> Self {
        McfgEntry {
            base_address: field_in(bytes, 0, 8), // Base Address
            pci_segment_group: u16_in(bytes, 8), // PCI Segment Group Number
            bus_number_start: u8_in(bytes, 10), // Start Bus Number
            bus_number_end: u8_in(bytes, 11), // End Bus Number
        }
    }
}
