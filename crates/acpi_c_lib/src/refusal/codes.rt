//! Made by scripts/codes: codes of values, and values of codes, as definitions in specs/ have them.
ghost use Rattle.std.specs.Prelude.{◌≡◌};
ghost use Rattle.acpi_c_lib.specs.Codes.{madt_code, own_acpi_code, own_code, writer_code};

use crate::refusal::Refusal;
use acpi_bytes::error::{AcpiError, MadtError};
use acpi_table_writer::WriterError;

/// The number of an error of the MADT's entries (section 5.2.12); 99 is for the one that no call returns.
pub(crate) fn madt_code(error: MadtError) -> u32
    ensures { result ≡ madt_code error }
{
    match error {
        MadtError::UnexpectedEntry => 44,
        MadtError::InterruptOverrideEntryHasInvalidBus => 45,
        MadtError::InvalidLocalNmiLine => 46,
        MadtError::MpsIntiInvalidPolarity => 47,
        MadtError::MpsIntiInvalidTriggerMode => 48,
        MadtError::InvalidEntryLength => 49,
        MadtError::WakeupApsTimeout => 99,
    }
}

/// The number of an error of the crate `acpi` that carries no other, else 0.
#[inline(never)] // since a compiler makes a table of a match with nothing but numbers
pub(crate) fn own_acpi_code(error: AcpiError) -> u8
    ensures { result ≡ own_acpi_code error }
{
    match error {
        AcpiError::MapFailed => 10,
        AcpiError::NoValidRsdp => 11,
        AcpiError::RsdpIncorrectSignature => 12,
        AcpiError::RsdpInvalidOemId => 13,
        AcpiError::RsdpInvalidChecksum => 14,
        AcpiError::SdtInvalidSignature(_) => 20,
        AcpiError::SdtInvalidOemId(_) => 21,
        AcpiError::SdtInvalidTableId(_) => 22,
        AcpiError::SdtInvalidLength(_) => 23,
        AcpiError::SdtInvalidChecksum(_) => 24,
        AcpiError::TableMissing(_) => 25,
        AcpiError::InvalidDsdtAddress => 30,
        AcpiError::InvalidGenericAddress => 31,
        AcpiError::InvalidFacsAddress => 99,
        AcpiError::InvalidNamespaceString => 99,
        AcpiError::AllocError => 99,
        AcpiError::InvalidMadt(_) => 0,
    }
}

/// The number of an error of a table that is written; 99 is for the errors that no call returns.
pub(crate) fn writer_code(error: WriterError) -> u32
    ensures { result ≡ writer_code error }
{
    match error {
        WriterError::NoProcessor => 61,
        WriterError::IdOfAll => 62,
        WriterError::UidOfAll => 63,
        WriterError::BadMatrix => 64,
        WriterError::NoAddress => 65,
        WriterError::BadName => 66,
        WriterError::NoRoom => 67,
        WriterError::TooLong => 68,
        WriterError::BadRegister => 69,
        WriterError::BadRange => 70,
        WriterError::SameAsBus => 71,
        WriterError::TooManyFrames => 72,
        WriterError::HasHeader => 74,
        WriterError::BadProfile => 99,
        WriterError::BadCode => 99,
        WriterError::LongName => 99,
    }
}

/// The number of an error that carries no other, else 0.
#[inline(never)] // since a compiler makes a table of a match with nothing but numbers
pub(crate) fn own_code(refusal: Refusal) -> u8
    ensures { result ≡ own_code refusal }
{
    match refusal {
        Refusal::RegionsNotAscending => 1,
        Refusal::RegionTooHigh => 2,
        Refusal::UnknownStart => 3,
        Refusal::RangeTooHigh => 4,
        Refusal::UnknownWidth => 5,
        Refusal::NoSuchState => 6,
        Refusal::UnknownPolicy => 7,
        Refusal::NoSuchFunction => 32,
        Refusal::NoRegister => 33,
        Refusal::NoReset => 34,
        Refusal::SleepStateAbsent => 35,
        Refusal::SleepStateNotSeen => 36,
        Refusal::AmlInvalid(_) => 37,
        Refusal::SleepTypeTooHigh => 38,
        Refusal::NoApics => 40,
        Refusal::NoGic => 41,
        Refusal::NoSuchInterrupt => 42,
        Refusal::NoSuchIoApic => 43,
        Refusal::InvalidSratEntryLength => 50,
        Refusal::InvalidMemoryRange => 51,
        Refusal::NoDomain => 52,
        Refusal::NoDistance => 53,
        Refusal::InvalidIommuStructureLength => 54,
        Refusal::InvalidIommuMemoryRange => 55,
        Refusal::NoIommu => 56,
        Refusal::InvalidTimerLength => 57,
        Refusal::NoRiscv => 58,
        Refusal::ShortRiscvEntry => 59,
        Refusal::UnknownCode => 60,
        Refusal::BadTable => 73,
        Refusal::Writer(_) => 0,
        Refusal::Acpi(_) => 0,
    }
}
