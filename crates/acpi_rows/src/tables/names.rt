//! Signatures and errors, and their texts.

use crate::out::Out;
use crate::words::signature_of;
use acpi::sdt::Signature;
use acpi::{AcpiError, MadtError};

/// The constants of these names, each after its name.
macro_rules! constants {
    ($($name:ident)*) => {
        [$((stringify!($name), Signature::$name)),*]
    };
}

/// The errors for a table of these names.
macro_rules! refusals {
    ($signature:ident: $($name:ident)*) => {
        [$(AcpiError::$name($signature)),*]
    };
}

/// The constants of the library, each after its name.
#[rattlefmt::skip]
static CONSTANTS: [(&str, Signature); 65] = constants!(
    RSDT XSDT FADT HPET MADT MCFG SSDT BERT BGRT CPEP DSDT ECDT EINJ ERST FACS FPDT GTDT HEST
    MSCT MPST NFIT PCCT PHAT PMTT PSDT RASF SBST SDEV SLIT SRAT AEST BDAT CDIT CEDT CRAT CSRT
    DBGP DBG2 DMAR DRTM ETDT IBFT IORT IVRS LPIT MCHI MPAM MSDM PRMT RGRT SDEI SLIC SPCR SPMI
    STAO SVKL TCPA TPM2 UEFI WAET WDAT WDRT WPBT WSMT XENV
);

/// The errors that name no table.
static OTHERS: [AcpiError; 17] = [
    AcpiError::NoValidRsdp,
    AcpiError::RsdpIncorrectSignature,
    AcpiError::RsdpInvalidOemId,
    AcpiError::RsdpInvalidChecksum,
    AcpiError::InvalidFacsAddress,
    AcpiError::InvalidDsdtAddress,
    AcpiError::InvalidGenericAddress,
    AcpiError::AllocError,
    AcpiError::MapFailed,
    AcpiError::InvalidNamespaceString,
    AcpiError::InvalidMadt(MadtError::UnexpectedEntry),
    AcpiError::InvalidMadt(MadtError::InterruptOverrideEntryHasInvalidBus),
    AcpiError::InvalidMadt(MadtError::InvalidLocalNmiLine),
    AcpiError::InvalidMadt(MadtError::MpsIntiInvalidPolarity),
    AcpiError::InvalidMadt(MadtError::MpsIntiInvalidTriggerMode),
    AcpiError::InvalidMadt(MadtError::WakeupApsTimeout),
    AcpiError::InvalidMadt(MadtError::InvalidEntryLength),
];

/// What four letters are as a signature: `signature`, how it is printed, debugged, and stored, `against SIGNATURE`,
/// how they compare, `refusals`, those that name a table, and of all `others` and `constants`.
pub(super) fn answer(out: Out<'_>, bytes: &[u8], call: &str, rest: &str) {
    let Some(letters) = bytes.first_chunk::<4>() else {
        return;
    };
    let signature = Signature::from_bytes(*letters);
    match call {
        "against" => {
            let other = signature_of(rest);
            out.show(&(signature.cmp(&other), signature == other));
        }
        "constants" => {
            for constant in &CONSTANTS {
                out.show(constant);
            }
        }
        "others" => print_all(out, &OTHERS),
        "refusals" => print_all(
            out,
            &refusals!(signature: SdtInvalidSignature SdtInvalidOemId SdtInvalidTableId
            SdtInvalidChecksum SdtInvalidLength TableMissing),
        ),
        _ => {
            out.print(&signature);
            out.show(&(signature, signature.as_str(), signature.to_bytes()));
        }
    }
}

fn print_all(out: Out<'_>, refusals: &[AcpiError]) {
    for refusal in refusals {
        out.print(refusal);
    }
}
