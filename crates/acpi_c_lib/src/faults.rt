//! The tables that lookups skip, or take though they aren't valid.
ghost use Rattle.std.specs.Prelude.{◌≡◌, ◌^◌, ◌<◌, ◌≤◌, [], length};
ghost use Rattle.acpi_base.specs.FromStd.{cons_option};
ghost use Rattle.acpi.specs.Words.{pointers_left};
ghost use Rattle.acpi_base.specs.Words.{accepted, table_at};
ghost use Rattle.acpi_c_lib.specs.Words.{Fills, Writes, accepted_fault, result_map, fault_record, faults_among, faults_below, kind_named, least_named};

use crate::lists::put;
use crate::opening::open;
use crate::records::{self, Fault, Source};
use crate::refusal::{Refusal, acpi_code};
use crate::regions::Mapped;
use crate::tables::signature_named;
use acpi::bgrt::Bgrt;
use acpi::fadt::Fadt;
use acpi::hpet::HpetTable;
use acpi::madt::Madt;
use acpi::mcfg::Mcfg;
use acpi::sdt::{SdtHeader, Signature};
use acpi::spcr::Spcr;
use acpi::{AcpiError, AcpiHandler, AcpiResult, PhysicalRecord, Pointers};
use acpi_arm::gtdt::Gtdt;
use acpi_base::table::valid_by;
use acpi_iommu::{Dmar, Ivrs};
use acpi_numa::{Slit, Srat};

/// Lists the tables that a lookup of a signature skips, and the one that it takes if that isn't valid, and why.
pub fn faults(
    source: &Source<'_>,
    name: records::Signature,
    out: &mut [Fault],
) -> Result<usize, Refusal>
    ensures { Fills result out.old out.new (faults_below source.now name) }
{
    let memory = Mapped::new(source.regions)?;
    let tables = open(&memory, source)?;
    let signature = signature_named(name);
    Ok(fill_faults(&memory, source.accept, tables.addresses(), signature, out))
}

/// The faults of a lookup of a signature.
fn fill_faults<H: AcpiHandler>(
    handler: &H,
    accept: u32,
    addresses: Pointers<'_>,
    signature: Signature,
    out: &mut [Fault],
) -> usize
    requires { length (pointers_left addresses) < 2 ^ 32 }
    ensures { Writes result out.old out.new (faults_among accept (H.memory handler.now) (kind_named signature)
        (pointers_left addresses.entry)) }
{
    let mut count = 0;
    for address in addresses {
        let (fault, ends) = match looked_at(handler, accept, address, signature) {
            Ok(()) => (accepted_fault(handler, address, signature), true),
            Err(AcpiError::SdtInvalidSignature(_)) => (None, false),
            Err(error) => (Some(fault_record(0, address, error)), false),
        };
        if let Some(fault) = fault {
            put(out, count, fault);
            count += 1;
        }
        if ends {
            break;
        }
    }
    count
}

/// Why the table at an address that is accepted isn't valid.
fn accepted_fault<H: AcpiHandler>(handler: &H, address: u64, signature: Signature) -> Option<Fault>
    ensures { accepted_fault address (table_at (H.memory handler.now) (kind_named signature) address)
        ≡ cons_option result [] }
{
    match looked_at(handler, 0, address, signature) {
        Ok(()) => None,
        Err(error) => Some(fault_record(1, address, error)),
    }
}

/// That the table at an address isn't valid, or isn't accepted.
fn fault_record(accepted: u8, address: u64, error: AcpiError) -> Fault
    ensures { result ≡ fault_record accepted address error }
{
    Fault {
        address,
        status: acpi_code(error),
        accepted,
        reserved: [0; 3],
    }
}

/// Whether a lookup of a signature takes the table at an address, or why it passes it over.
fn looked_at<H: AcpiHandler>(
    handler: &H,
    accept: u32,
    address: u64,
    signature: Signature,
) -> AcpiResult<()>
    ensures { result ≡ result_map (λ _. tt)
        (table_at (H.memory handler.now) (accepted accept (kind_named signature)) address) }
{
    let table = valid_by(handler, address, signature, least_named(signature), accept)?;
    table.mapping::<SdtHeader>();
    Ok(())
}

/// The least length of a table that a lookup of a signature takes.
#[tactic(auto, using(crate::proofs::Unmapped::same_signature), unfolding(crate::specs::Faults::least_named))]
fn least_named(signature: Signature) -> usize
    ensures value { result ≡ least_named signature }
    ensures least { 36 ≤ result }
{
    if signature == Signature::FADT {
        Fadt::MIN_LENGTH
    } else if signature == Signature::MADT {
        Madt::MIN_LENGTH
    } else if signature == Signature::MCFG {
        Mcfg::MIN_LENGTH
    } else if signature == Signature::HPET {
        HpetTable::MIN_LENGTH
    } else if signature == Signature::BGRT {
        Bgrt::MIN_LENGTH
    } else if signature == Signature::SPCR {
        Spcr::MIN_LENGTH
    } else if signature == Signature::GTDT {
        Gtdt::MIN_LENGTH
    } else if signature == Signature::SRAT {
        Srat::MIN_LENGTH
    } else if signature == Signature::SLIT {
        Slit::MIN_LENGTH
    } else if signature == Signature::DMAR {
        Dmar::MIN_LENGTH
    } else if signature == Signature::IVRS {
        Ivrs::MIN_LENGTH
    } else {
        SdtHeader::MIN_LENGTH
    }
}
