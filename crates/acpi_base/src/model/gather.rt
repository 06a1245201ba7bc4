//! The walks along the entries: the first one counts, or finds a fault, and the second one gathers.
ghost use Rattle.std.specs.Prelude.{◌≡◌, [], IfOk, IfErr};
ghost use Rattle.acpi_base.specs.Words.{AsksMemory, gathered, model_with, items_of, GivesOrFull, counts_of, cut_of};
ghost use Rattle.acpi_bytes.specs.declared.error.AcpiError.TheVariants.{AllocError as NoMemory};

use super::ModelAndProcessors;
use super::builder::ModelBuilder;
use super::counts::Counts;
use super::interrupt::InterruptModel;
use crate::bytes::skip;
use crate::entries::split_whole;
use crate::error::AcpiResult;
use crate::memory::handler::PhysicalRecord;
use crate::tables::madt::{MADT_GRAMMAR, Madt};
use std::alloc::Allocator;

/// The model of APICs, with room for exactly what is counted.
///
/// Fails with `AllocError` if memory is refused, or a clone of the allocator.
fn gather<A: Allocator + Clone>(
    madt: &Madt,
    table: &[u8],
    counts: Counts,
    allocator: A,
) -> AcpiResult<ModelAndProcessors<A>>
    requires counts { counts ≡ counts_of (items_of table.now) }
    requires whole { (cut_of table.now).1 ≡ [] }
    ensures gathered { IfOk result (λ m. m ≡ gathered madt.now (items_of table.now)) }
    ensures refused { IfErr result (λ e. e ≡ NoMemory) }
{
    let mut builder = ModelBuilder::with_room(madt, counts, allocator)?;
    let mut rest = skip(table, Madt::MIN_LENGTH);
    while let Some((entry, others)) = split_whole(&MADT_GRAMMAR, rest) {
        rest = others;
        builder.add_entry(entry);
    }
    Ok(builder.finish())
}

/// The interrupt model and the processors of a MADT, out of its bytes.
///
/// Fails with `InvalidMadt` for the first fault, and then with `AllocError` if memory for a model of APICs
/// is refused.
pub(crate) fn model_in<A: Allocator + Clone>(
    madt: &Madt,
    table: &[u8],
    allocator: A,
) -> AcpiResult<ModelAndProcessors<A>>
    ensures { GivesOrFull (AsksMemory table.now) result (model_with madt.now table.now) }
{
    let counts = Counts::of(table)?;
    if !counts.is_of_apic {
        return Ok((InterruptModel::Unknown, None));
    }
    gather(madt, table, counts, allocator)
}
