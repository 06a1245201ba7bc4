//! Made by scripts/readings: records, as their definitions in specs/ read them from bytes.
ghost use Rattle.std.proofs.Common.{lit≤};
ghost use Rattle.acpi_bytes.specs.declared.signature.TheConstants.Signature.{SLIT};
ghost use Rattle.acpi_numa.specs.Slit.{slit_at};

use super::{SdtHeader, Slit};
use acpi_base::bytes::field_in;
use acpi_base::{PhysicalRecord, SdtTable, Signature};

impl PhysicalRecord for Slit {
    const MIN_LENGTH: usize = 44;

    ghost MIN_LENGTH = { 44 };

    ghost reading = { slit_at };

    #[tactic(auto, unfolding(crate::specs::Slit::slit_at))]
    fn read(bytes: &[u8]) -> Self {
        Slit {
            header: SdtHeader::read(bytes),
            localities: field_in(bytes, 36, 8), // Number of System Localities
        }
    }
}

impl SdtTable for Slit {
    const NAME: Signature = Signature::SLIT;

    ghost NAME = { SLIT };

    #[tactic(auto, unfolding(crate::specs::Slit::slit_at))]
    fn sdt_header(&self) -> &SdtHeader {
        &self.header
    }

    ghost least = { lit≤ tt };
}
