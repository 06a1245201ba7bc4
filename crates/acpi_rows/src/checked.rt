//! Types of tables with a check of their own.
ghost use Rattle.std.specs.Prelude.{◌≡◌, ◌==◌};
ghost use Rattle.acpi.specs.Types.{InvalidGenericAddress};
ghost use Rattle.acpi_base.specs.Words.{holds};

use acpi::sdt::{SdtHeader, Signature};
use acpi::{AcpiError, AcpiResult, AcpiTable, PhysicalRecord};
use acpi_base::bytes::u8_in;

/// A boot graphic whose byte 36 has to be 1, after all that is checked of each table.
#[derive(Clone, Copy)]
pub(crate) struct Numbered {
    header: SdtHeader,
    number: u8,
}

/// A boot graphic whose byte 36 has to be 1, and whose sum may be any.
#[derive(Clone, Copy)]
pub(crate) struct Unsummed {
    header: SdtHeader,
    number: u8,
}

/// Fails unless a number is 1.
fn check_number(number: u8) -> AcpiResult<()>
    ensures { result ≡ holds (number == 1) InvalidGenericAddress }
{
    if number == 1 {
        Ok(())
    } else {
        Err(AcpiError::InvalidGenericAddress)
    }
}

impl PhysicalRecord for Numbered {
    ghost use Rattle.acpi_base.specs.Words.{field_of, header_at};

    const MIN_LENGTH: usize = 37;

    ghost MIN_LENGTH = { 37 };

    ghost reading = { λ b. record { header = header_at b; number = field_of b 36 1 } };

    fn read(bytes: &[u8]) -> Self {
        Numbered {
            header: SdtHeader::read(bytes),
            number: u8_in(bytes, 36),
        }
    }
}

impl PhysicalRecord for Unsummed {
    ghost use Rattle.acpi_base.specs.Words.{field_of, header_at};

    const MIN_LENGTH: usize = 37;

    ghost MIN_LENGTH = { 37 };

    ghost reading = { λ b. record { header = header_at b; number = field_of b 36 1 } };

    fn read(bytes: &[u8]) -> Self {
        Unsummed {
            header: SdtHeader::read(bytes),
            number: u8_in(bytes, 36),
        }
    }
}

impl AcpiTable for Numbered {
    ghost use Rattle.std.proofs.Common.{lit≤};
    ghost use Rattle.std.specs.Prelude.{refl};
    ghost use Rattle.acpi_base.specs.Words.{field_of, sdt_kind, with_own};
    ghost use Rattle.acpi.specs.Types.{BGRT};

    const SIGNATURE: Signature = Signature::BGRT;

    ghost SIGNATURE = { BGRT };

    ghost kind = { with_own (λ b. holds (field_of b 36 1 == 1) InvalidGenericAddress) (sdt_kind BGRT 37) };

    fn header(&self) -> &SdtHeader {
        &self.header
    }

    fn validate(&self, bytes: &[u8]) -> AcpiResult<()> {
        self.header.validate(Self::SIGNATURE, bytes)
    }

    fn check_own(bytes: &[u8]) -> AcpiResult<()> {
        check_number(Self::read(bytes).number)
    }

    ghost least = { lit≤ tt };

    ghost agrees = { (refl, refl, refl) };
}

impl AcpiTable for Unsummed {
    ghost use Rattle.std.proofs.Common.{lit≤};
    ghost use Rattle.std.specs.Prelude.{refl};
    ghost use Rattle.acpi_base.specs.Words.{field_of, kind};
    ghost use Rattle.acpi.specs.Types.{BGRT};

    const SIGNATURE: Signature = Signature::BGRT;

    ghost SIGNATURE = { BGRT };

    ghost kind = { kind BGRT 37 (λ b. holds (field_of b 36 1 == 1) InvalidGenericAddress) };

    fn header(&self) -> &SdtHeader {
        &self.header
    }

    fn validate(&self, _bytes: &[u8]) -> AcpiResult<()> {
        check_number(self.number)
    }

    fn check_own(_bytes: &[u8]) -> AcpiResult<()> {
        Ok(())
    }

    ghost least = { lit≤ tt };

    ghost agrees = { (refl, refl, refl) };
}
