//! Made by scripts/readings: records, as their definitions in specs/ read them from bytes.
ghost use Rattle.std.proofs.Common.{lit≤};
ghost use Rattle.acpi_bytes.specs.declared.signature.TheConstants.Signature.{SRAT};
ghost use Rattle.acpi_numa.specs.Srat.{srat_at};

use super::{SdtHeader, Srat};
use acpi_base::{PhysicalRecord, SdtTable, Signature};

impl PhysicalRecord for Srat {
    const MIN_LENGTH: usize = 48;

    ghost MIN_LENGTH = { 48 };

    ghost reading = { srat_at };

    #[tactic(auto, unfolding(crate::specs::Srat::srat_at))]
    fn read(bytes: &[u8]) -> Self {
        Srat {
            header: SdtHeader::read(bytes),
        }
    }
}

impl SdtTable for Srat {
    const NAME: Signature = Signature::SRAT;

    ghost NAME = { SRAT };

    #[tactic(auto, unfolding(crate::specs::Srat::srat_at))]
    fn sdt_header(&self) -> &SdtHeader {
        &self.header
    }

    ghost least = { lit≤ tt };
}
