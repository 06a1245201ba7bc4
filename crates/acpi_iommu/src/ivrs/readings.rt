//! Made by scripts/readings: records, as their definitions in specs/ read them from bytes.
ghost use Rattle.std.proofs.Common.{lit≤};
ghost use Rattle.acpi_bytes.specs.declared.signature.TheConstants.Signature.{IVRS};
ghost use Rattle.acpi_iommu.specs.Ivrs.{ivrs_at};

use super::{Ivrs, SdtHeader};
use acpi_base::bytes::u32_in;
use acpi_base::{PhysicalRecord, SdtTable, Signature};

impl PhysicalRecord for Ivrs {
    const MIN_LENGTH: usize = 48;

    ghost MIN_LENGTH = { 48 };

    ghost reading = { ivrs_at };

    #[tactic(auto, unfolding(crate::specs::Ivrs::ivrs_at))]
    fn read(bytes: &[u8]) -> Self {
        Ivrs {
            header: SdtHeader::read(bytes),
            info: u32_in(bytes, 36), // IVinfo
        }
    }
}

impl SdtTable for Ivrs {
    const NAME: Signature = Signature::IVRS;

    ghost NAME = { IVRS };

    #[tactic(auto, unfolding(crate::specs::Ivrs::ivrs_at))]
    fn sdt_header(&self) -> &SdtHeader {
        &self.header
    }

    ghost least = { lit≤ tt };
}
