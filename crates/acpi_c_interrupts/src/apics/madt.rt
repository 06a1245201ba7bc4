//! The MADT of a machine with APICs, none of whose entries is at fault.
ghost use Rattle.std.specs.Prelude.{◌≡◌, true, IfOk, IfSome, Ok, Some, option_map};
ghost use Rattle.acpi_base.specs.FromStd.{list_any};
ghost use Rattle.acpi_base.specs.Words.{counts_of, entries_of, bytes_of, start_of, items_of, Gives};
ghost use Rattle.acpi.specs.Words.{accept_of, accepted_by, madt_kind, memory_of, pointers_of};
ghost use Rattle.acpi.specs.Lookup as reader;
ghost use Rattle.acpi_c_lib.specs.Words.{mapped_memory, memory_in};
ghost use Rattle.acpi_c_interrupts.specs.Words.{accepted_model, apic_table, is_of_apics, io_apic_record, model_by, platform_model, known_platform};

pub(crate) mod shown;

use acpi::madt::Madt;
use acpi::platform::PmTimer;
use acpi::{Accept, AcpiHandler, AcpiResult, AcpiTables, Lender, PhysicalMapping};
use acpi_base::model::Counts;
use acpi_c_lib::opening::{find_fadt, open};
use acpi_c_lib::records::Source;
use acpi_c_lib::refusal::Refusal;
use acpi_c_lib::regions::Mapped;
pub(crate) use shown::io_apic_record;

/// A MADT that describes APICs, and how much there is of each sort in it.
#[derive(Drop)]
pub(crate) struct ApicMadt<'h, H: Lender> {
    pub(crate) madt: PhysicalMapping<'h, H, Madt>,
    pub(crate) counts: Counts,
}

/// The MADT that describes the machine's APICs, with how much there is of each sort, or `None` if no
/// valid one is listed or it describes none.
///
/// Fails, in this order, with `TableMissing` if no FADT is listed that is accepted, with `InvalidMadt` for the first
/// entry of the MADT at fault, and with the error of the FADT's timer: as `PlatformInfo::new` does, which returns the
/// same if nothing but valid tables is accepted.
pub(crate) fn apic_madt<'h, H: AcpiHandler>(
    tables: &AcpiTables<'h, H, Accept>,
) -> AcpiResult<Option<ApicMadt<'h, H>>>
    ensures model { let t = tables.now in Gives (λ o. model_by (option_map (λ x. bytes_of x.madt) o)) result
        (platform_model (accept_of t) (memory_of t) (pointers_of t)) }
    ensures counts { IfOk result (λ o. IfSome o (λ x. x.counts ≡ counts_of (items_of (bytes_of x.madt)))) }
    ensures found { let t = tables.now in IfOk result (λ o. IfSome o (λ x.
        (reader.lookup (memory_of t) (accepted_by t madt_kind) (pointers_of t)
        ≡ Ok (start_of x.madt, bytes_of x.madt))
        × (list_any is_of_apics (entries_of (bytes_of x.madt)) ≡ true))) }
{
    let fadt = find_fadt(tables)?;
    let timer = PmTimer::of(&fadt);
    let found = found_madt(tables)?;
    timer?;
    Ok(found)
}

/// The MADT that describes the machine's APICs, with how much there is of each sort, by the tables that a source leads
/// to in the memory of its regions.
///
/// Fails as `Mapped::new` does, then as `open` and `apic_madt` do, and then with `NoApics` if there is none.
#[tactic(auto, unfolding(crate::specs::Apics::apic_table, acpi_c_lib::specs::Below::first_table, crate::specs::Routes::known_platform))]
pub(crate) fn known_madt<'h, 'k>(
    memory: &'h Result<Mapped<'k>, Refusal>,
    source: &Source<'_>,
) -> Result<ApicMadt<'h, Mapped<'k>>, Refusal>
    requires { Gives (λ m. mapped_memory m) memory.now (memory_in source.now.regions.now) }
    ensures platform { Gives (λ x. model_by (Some (bytes_of x.madt))) result (known_platform source.now) }
    ensures counts { IfOk result (λ x. x.counts ≡ counts_of (items_of (bytes_of x.madt))) }
    // So the lists, which look at no fault, are of this table.
    ensures table { IfOk result (λ x. apic_table source.now ≡ Ok (bytes_of x.madt)) }
{
    let memory = match memory {
        Ok(memory) => memory,
        Err(refusal) => return Err(*refusal),
    };
    let tables = open(memory, source)?;
    apic_madt(&tables)?.ok_or(Refusal::NoApics)
}

/// The first valid MADT, if it describes APICs, with how much there is of each sort, or `None` if no valid one is
/// listed or it describes none. The FADT isn't looked at.
///
/// Fails with `InvalidMadt` for the first entry that is at fault.
#[tactic(auto, using(crate::proofs::ApicLists::any_said))]
fn found_madt<'h, H: AcpiHandler>(
    tables: &AcpiTables<'h, H, Accept>,
) -> AcpiResult<Option<ApicMadt<'h, H>>>
    ensures model { let t = tables.now in Gives (λ o. model_by (option_map (λ x. bytes_of x.madt) o)) result
        (accepted_model (accept_of t) (memory_of t) (pointers_of t)) }
    ensures counts { IfOk result (λ o. IfSome o (λ x. x.counts ≡ counts_of (items_of (bytes_of x.madt)))) }
    ensures found { let t = tables.now in IfOk result (λ o. IfSome o (λ x.
        (reader.lookup (memory_of t) (accepted_by t madt_kind) (pointers_of t)
        ≡ Ok (start_of x.madt, bytes_of x.madt))
        × (list_any is_of_apics (entries_of (bytes_of x.madt)) ≡ true))) }
{
    match tables.find_table::<Madt>() {
        Ok(madt) => {
            let counts = madt.model_counts()?;
            if !counts.is_of_apic {
                return Ok(None);
            }
            Ok(Some(ApicMadt { madt, counts }))
        }
        Err(_) => Ok(None),
    }
}
