//! What there is of interrupts and processors in all.
ghost use Rattle.std.specs.Prelude.{◌≡◌, Some, None};
ghost use Rattle.acpi_base.specs.Items as items;
ghost use Rattle.acpi_base.specs.Words.{bytes_of, items_of};
ghost use Rattle.acpi_c_interrupts.specs.Words.{below_platform, counts_of, model_by};

use crate::apics::madt::{ApicMadt, apic_madt};
use crate::apics::records::InterruptModel;
use acpi::Lender;
use acpi_c_lib::opening::open;
use acpi_c_lib::records::Source;
use acpi_c_lib::refusal::Refusal;
use acpi_c_lib::regions::Mapped;

/// Which controllers interrupts come to, and how many of each sort the first valid MADT has.
pub fn model(source: &Source<'_>) -> Result<InterruptModel, Refusal>
    ensures { result ≡ below_platform source.now counts_of }
{
    let memory = Mapped::new(source.regions)?;
    let tables = open(&memory, source)?;
    match apic_madt(&tables)? {
        Some(found) => Ok(known_model(&found)),
        None => Ok(unknown_model()),
    }
}

/// The model of a machine whose MADT describes no APICs: zeros.
fn unknown_model() -> InterruptModel
    ensures { result ≡ counts_of (model_by None) }
{
    InterruptModel {
        local_apic_address: 0,
        io_apics: 0,
        overrides: 0,
        nmi_sources: 0,
        nmi_lines: 0,
        processors: 0,
        known: 0,
        also_has_8259: 0,
        reserved: [0; 6],
    }
}

/// The model of a MADT that describes APICs.
#[tactic(auto, using(crate::proofs::Counted::as_many, crate::proofs::ApicLists::last_said))]
pub(crate) fn known_model<H: Lender>(found: &ApicMadt<'_, H>) -> InterruptModel
    requires { found.now.counts ≡ items.counts_of (items_of (bytes_of found.now.madt)) }
    ensures { result ≡ counts_of (model_by (Some (bytes_of found.now.madt))) }
{
    let fixed_address = found.madt.local_apic_address as u64;
    InterruptModel {
        local_apic_address: found.counts.local_apic_address.unwrap_or(fixed_address),
        io_apics: found.counts.io_apics,
        overrides: found.counts.overrides,
        nmi_sources: found.counts.nmi_sources,
        nmi_lines: found.counts.nmi_lines,
        processors: found.counts.processors,
        known: 1,
        also_has_8259: found.madt.supports_8259() as u8,
        reserved: [0; 6],
    }
}
