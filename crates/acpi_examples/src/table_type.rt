//! A type of table of the kernel's own, and a lookup of it.

use acpi::bgrt::Bgrt;
use acpi::sdt::{SdtHeader, Signature, field};
use acpi::{AcpiHandler, AcpiResult, AcpiTables, PhysicalRecord, SdtTable};

/// The Windows Security Mitigations Table (WSMT): what the firmware protects in system management mode.
#[derive(Clone, Copy)]
pub struct Wsmt {
    header: SdtHeader,
    /// Protection Flags: bit 0, only fixed buffers are taken. Bit 1, pointers in them are checked. Bit 2,
    /// system resources are protected.
    pub protections: u32,
}

impl PhysicalRecord for Wsmt {
    ghost use Rattle.acpi_bytes.specs.Bytes.{field_of};
    ghost use Rattle.acpi_bytes.specs.Header.{header_at};

    const MIN_LENGTH: usize = 40;

    ghost MIN_LENGTH = { 40 };

    ghost reading = { λ b. record { header = header_at b; protections = field_of b 36 4 } };

    fn read(bytes: &[u8]) -> Self {
        Wsmt {
            header: SdtHeader::read(bytes),
            protections: field(bytes, 36, 4) as u32,
        }
    }
}

impl SdtTable for Wsmt {
    ghost use Rattle.std.proofs.Common.{lit≤};
    ghost use Rattle.acpi_bytes.specs.declared.signature.TheConstants.Signature.{WSMT};

    const NAME: Signature = Signature::WSMT;

    ghost NAME = { WSMT };

    fn sdt_header(&self) -> &SdtHeader {
        &self.header
    }

    ghost least = { lit≤ tt };
}

/// The physical address of the boot graphic, and Protection Flags.
pub fn find_both<H: AcpiHandler>(memory: &H, rsdt: u64) -> AcpiResult<(u64, u32)> {
    let tables = AcpiTables::from_rsdt(memory, 0, rsdt)?;
    let graphic = tables.find_table::<Bgrt>()?;
    let mitigations = tables.find_table::<Wsmt>()?;
    Ok((graphic.image_address, mitigations.protections))
}
