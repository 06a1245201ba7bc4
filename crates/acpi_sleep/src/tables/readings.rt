//! Made by scripts/readings: records, as their definitions in specs/ read them from bytes.
ghost use Rattle.std.proofs.Common.{lit≤};
ghost use Rattle.acpi_bytes.specs.declared.signature.TheConstants.Signature.{SSDT};
ghost use Rattle.acpi_sleep.specs.Tables.{ssdt_at};

use super::{SdtHeader, Ssdt};
use acpi_base::{PhysicalRecord, SdtTable, Signature};

impl PhysicalRecord for Ssdt {
    const MIN_LENGTH: usize = 36;

    ghost MIN_LENGTH = { 36 };

    ghost reading = { ssdt_at };

    #[tactic(auto, unfolding(crate::specs::Tables::ssdt_at))]
    fn read(bytes: &[u8]) -> Self {
        Ssdt {
            header: SdtHeader::read(bytes),
        }
    }
}

impl SdtTable for Ssdt {
    const NAME: Signature = Signature::SSDT;

    ghost NAME = { SSDT };

    #[tactic(auto, unfolding(crate::specs::Tables::ssdt_at))]
    fn sdt_header(&self) -> &SdtHeader {
        &self.header
    }

    ghost least = { lit≤ tt };
}
