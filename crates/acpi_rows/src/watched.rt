//! A type of table that shows whether the value in a mapping is the one that was checked.

use acpi::sdt::{SdtHeader, Signature};
use acpi::{AcpiResult, AcpiTable, PhysicalRecord};
use std::cell::Cell;

/// A boot graphic that counts how often it was checked. A cell's value counts for nothing in a
/// contract, so this is a table type like any other.
#[derive(Drop)]
pub(crate) struct Watched {
    header: SdtHeader,
    checks: Cell<u32>,
}

impl Watched {
    /// How often `validate` was called on this very value.
    pub(crate) fn checks(&self) -> u32 {
        self.checks.get()
    }
}

impl PhysicalRecord for Watched {
    ghost use Rattle.acpi_base.specs.Words.{header_at};

    const MIN_LENGTH: usize = 36;

    ghost MIN_LENGTH = { 36 };

    ghost reading = { λ b. record { header = header_at b; checks = record { value = tt } } };

    fn read(bytes: &[u8]) -> Self {
        Watched {
            header: SdtHeader::read(bytes),
            checks: Cell::new(0),
        }
    }
}

impl AcpiTable for Watched {
    ghost use Rattle.std.proofs.Common.{lit≤};
    ghost use Rattle.std.specs.Prelude.{refl};
    ghost use Rattle.acpi_base.specs.Words.{sdt_kind};
    ghost use Rattle.acpi.specs.Types.{BGRT};

    const SIGNATURE: Signature = Signature::BGRT;

    ghost SIGNATURE = { BGRT };

    ghost kind = { sdt_kind BGRT 36 };

    fn header(&self) -> &SdtHeader {
        &self.header
    }

    fn validate(&self, bytes: &[u8]) -> AcpiResult<()> {
        self.checks.set(self.checks.get().wrapping_add(1));
        self.header().validate(Self::SIGNATURE, bytes)
    }

    fn check_own(_bytes: &[u8]) -> AcpiResult<()> {
        Ok(())
    }

    ghost least = { lit≤ tt };

    ghost agrees = { (refl, refl, refl) };
}
