//! Why a call fails, the number that C gets for it, and the signature that it carries.
ghost use Rattle.std.specs.Prelude.{◌≡◌};
ghost use Rattle.acpi_c_lib.specs.Codes as codes;
ghost use Rattle.acpi_c_lib.specs.Words.{Acpi, Writer, iommu_refusal, plan_refusal, sleep_refusal};

mod codes;

use acpi::AcpiError;
use acpi::sdt::Signature;
use acpi_iommu::IommuError;
use acpi_sleep::{PlanError, SleepError};
use acpi_table_writer::WriterError;
use codes::{madt_code, own_acpi_code, own_code, writer_code};

/// Why a call fails. `enum zacpi_status_code` of `include/zacpi.h` has what each error means.
#[derive(Clone, Copy)]
pub enum Refusal {
    RegionsNotAscending,
    RegionTooHigh,
    UnknownStart,
    RangeTooHigh,
    UnknownWidth,
    NoSuchState,
    UnknownPolicy,
    NoSuchFunction,
    NoRegister,
    NoReset,
    SleepStateAbsent,
    SleepStateNotSeen,
    /// The AML is that of a table of this signature.
    AmlInvalid(Signature),
    SleepTypeTooHigh,
    NoApics,
    NoGic,
    NoSuchInterrupt,
    NoSuchIoApic,
    InvalidSratEntryLength,
    InvalidMemoryRange,
    NoDomain,
    NoDistance,
    InvalidIommuStructureLength,
    InvalidIommuMemoryRange,
    NoIommu,
    InvalidTimerLength,
    NoRiscv,
    ShortRiscvEntry,
    UnknownCode,
    BadTable,
    /// The error is one of a table that is written.
    Writer(WriterError),
    /// The error is one of the crate `acpi`: of memory, an RSDP, a table, a register or the MADT's entries.
    Acpi(AcpiError),
}

impl From<AcpiError> for Refusal {
    ghost from_gives = { λ error e. e ≡ Acpi error };

    fn from(error: AcpiError) -> Refusal {
        Refusal::Acpi(error)
    }
}

impl From<WriterError> for Refusal {
    ghost from_gives = { λ error e. e ≡ Writer error };

    fn from(error: WriterError) -> Refusal {
        Refusal::Writer(error)
    }
}

impl From<SleepError> for Refusal {
    ghost from_gives = { λ error e. e ≡ sleep_refusal error };

    fn from(error: SleepError) -> Refusal {
        match error {
            SleepError::NoSuchState => Refusal::NoSuchState,
            SleepError::Aml(signature, _) => Refusal::AmlInvalid(signature),
            SleepError::Acpi(error) => Refusal::Acpi(error),
        }
    }
}

impl From<IommuError> for Refusal {
    ghost from_gives = { λ error e. e ≡ iommu_refusal error };

    fn from(error: IommuError) -> Refusal {
        match error {
            IommuError::InvalidStructureLength => Refusal::InvalidIommuStructureLength,
            IommuError::InvalidMemoryRange => Refusal::InvalidIommuMemoryRange,
        }
    }
}

impl From<PlanError> for Refusal {
    ghost from_gives = { λ error e. e ≡ plan_refusal error };

    fn from(error: PlanError) -> Refusal {
        match error {
            PlanError::NoRegister => Refusal::NoRegister,
            PlanError::NoReset => Refusal::NoReset,
            PlanError::SleepTypeTooHigh => Refusal::SleepTypeTooHigh,
            PlanError::BadRegister(error) => Refusal::Acpi(error),
        }
    }
}

impl Refusal {
    /// The number of the error, as `enum zacpi_status_code` of `include/zacpi.h` has it.
    pub(crate) fn code(self) -> u32
        ensures { result ≡ codes.code_of self }
    {
        match self {
            Refusal::Writer(error) => writer_code(error),
            Refusal::Acpi(error) => acpi_code(error),
            own => own_code(own) as u32,
        }
    }

    /// The signature that the error carries, if it carries one: numbers 20 to 25 and 37 do.
    pub(crate) fn signature(self) -> Option<Signature>
        ensures { result ≡ codes.signature_of self }
    {
        match self {
            Refusal::Acpi(error) => carried(error),
            Refusal::AmlInvalid(signature) => Some(signature),
            _ => None,
        }
    }
}

/// The number of an error of the crate `acpi`; 99 is for the errors that no call returns.
pub(crate) fn acpi_code(error: AcpiError) -> u32
    ensures { result ≡ codes.acpi_code error }
{
    match error {
        AcpiError::InvalidMadt(error) => madt_code(error),
        own => own_acpi_code(own) as u32,
    }
}

/// The signature that an error of the crate `acpi` carries, if it carries one.
fn carried(error: AcpiError) -> Option<Signature>
    ensures { result ≡ codes.carried error }
{
    match error {
        AcpiError::SdtInvalidSignature(signature)
        | AcpiError::SdtInvalidOemId(signature)
        | AcpiError::SdtInvalidTableId(signature)
        | AcpiError::SdtInvalidLength(signature)
        | AcpiError::SdtInvalidChecksum(signature)
        | AcpiError::TableMissing(signature) => Some(signature),
        _ => None,
    }
}
