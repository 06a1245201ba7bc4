//! A type of table that the library doesn't have.

use acpi::sdt::{SdtHeader, Signature};
use acpi::{PhysicalRecord, SdtTable};

/// The Windows Security Mitigations Table (WSMT): what the firmware protects in system management mode.
#[derive(Clone, Copy)]
pub(crate) struct Wsmt {
    header: SdtHeader,
}

impl PhysicalRecord for Wsmt {
    ghost use Rattle.acpi_base.specs.Words.{header_at};

    const MIN_LENGTH: usize = 40;

    ghost MIN_LENGTH = { 40 };

    ghost reading = { λ b. record { header = header_at b } };

    fn read(bytes: &[u8]) -> Self {
        Wsmt {
            header: SdtHeader::read(bytes),
        }
    }
}

impl SdtTable for Wsmt {
    ghost use Rattle.std.proofs.Common.{lit≤};
    ghost use Rattle.acpi.specs.Types.{WSMT};

    const NAME: Signature = Signature::WSMT;

    ghost NAME = { WSMT };

    fn sdt_header(&self) -> &SdtHeader {
        &self.header
    }

    ghost least = { lit≤ tt };
}
