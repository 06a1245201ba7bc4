//! Made by scripts/readings: records, as their definitions in specs/ read them from bytes.
ghost use Rattle.std.proofs.Common.{lit≤};
ghost use Rattle.acpi_base.specs.Madt.{madt_at};
ghost use Rattle.acpi_bytes.specs.declared.signature.TheConstants.Signature.{MADT};

use super::{Madt, SdtHeader};
use crate::bytes::u32_in;
use crate::{PhysicalRecord, SdtTable, Signature};

impl PhysicalRecord for Madt {
    const MIN_LENGTH: usize = 44;

    ghost MIN_LENGTH = { 44 };

    ghost reading = { madt_at };

    #[tactic(auto, unfolding(crate::specs::Madt::madt_at))]
    fn read(bytes: &[u8]) -> Self {
        Madt {
            header: SdtHeader::read(bytes),
            local_apic_address: u32_in(bytes, 36), // Local Interrupt Controller Address
            flags: u32_in(bytes, 40), // Flags (Multiple APIC Flags)
        }
    }
}

impl SdtTable for Madt {
    const NAME: Signature = Signature::MADT;

    ghost NAME = { MADT };

    #[tactic(auto, unfolding(crate::specs::Madt::madt_at))]
    fn sdt_header(&self) -> &SdtHeader {
        &self.header
    }

    ghost least = { lit≤ tt };
}
