//! Made by scripts/readings: records, as their definitions in specs/ read them from bytes.
ghost use Rattle.std.proofs.Common.{lit≤};
ghost use Rattle.acpi_bytes.specs.declared.signature.TheConstants.Signature.{DMAR};
ghost use Rattle.acpi_iommu.specs.Dmar.{dmar_at};

use super::{Dmar, SdtHeader};
use acpi_base::bytes::u8_in;
use acpi_base::{PhysicalRecord, SdtTable, Signature};

impl PhysicalRecord for Dmar {
    const MIN_LENGTH: usize = 48;

    ghost MIN_LENGTH = { 48 };

    ghost reading = { dmar_at };

    #[tactic(auto, unfolding(crate::specs::Dmar::dmar_at))]
    fn read(bytes: &[u8]) -> Self {
        Dmar {
            header: SdtHeader::read(bytes),
            host_address_width: u8_in(bytes, 36), // Host Address Width
            flags: u8_in(bytes, 37), // Flags
        }
    }
}

impl SdtTable for Dmar {
    const NAME: Signature = Signature::DMAR;

    ghost NAME = { DMAR };

    #[tactic(auto, unfolding(crate::specs::Dmar::dmar_at))]
    fn sdt_header(&self) -> &SdtHeader {
        &self.header
    }

    ghost least = { lit≤ tt };
}
