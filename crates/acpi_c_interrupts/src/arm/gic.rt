//! The generic interrupt controller (GIC) of an Arm machine, with no heap: each list is written by a walk along the
//! entries of the MADT.
ghost use Rattle.std.specs.Prelude.{◌≡◌, map, filter_map, ok_or, option_map, slice_get};
ghost use Rattle.acpi_base.specs.FromStd.{list_any};
ghost use Rattle.acpi_base.specs.Words.{bytes_of, entries_of, Gives, entries_left};
ghost use Rattle.acpi_arm.specs.Gic.{distributor_in, items_of};
ghost use Rattle.acpi_c_lib.specs.Answers.{Fills};
ghost use Rattle.acpi_c_lib.specs.Parts.{FillsFrom, WritesFrom};
ghost use Rattle.acpi_c_lib.specs.Held.{mapped_memory};
ghost use Rattle.acpi_c_lib.specs.Regions.{memory_in};
ghost use Rattle.acpi_c_interrupts.specs.Arm.{below_gic, cpu_interface_record, distributor_below, gic_table, is_of_gic, msi_frame_record, no_distributor, redistributors_record, spis_or, translation_service_record};
ghost use Rattle.acpi_c_lib.specs.Listed.{lists_found};

mod shown;

use crate::arm::records;
use acpi::madt::Madt;
use acpi::{AcpiError, MadtError, PhysicalMapping};
use acpi_arm::gic::{
    GicCpuInterface, GicDistributor, GicMsiFrame, GicPart, GicRedistributors,
    GicTranslationService, SpiRange, distributor_in,
};
use acpi_base::bytes::field;
use acpi_base::madt::{MadtEntry, MadtEntryIter};
use acpi_c_lib::lists::{Listing, fill_part};
use acpi_c_lib::opening::first;
use acpi_c_lib::records::{Range, Source};
use acpi_c_lib::refusal::Refusal;
use acpi_c_lib::regions::Mapped;
use shown::{
    cpu_interface_record, distributor_record, msi_frame_record, redistributors_record,
    translation_service_record,
};

/// The first valid MADT, if one of its entries is of a GIC.
///
/// Fails as `first` does, and then with `NoGic`.
#[tactic(auto, unfolding(crate::specs::Arm::gic_table))]
fn gic_madt<'h, 'k>(
    memory: &'h Result<Mapped<'k>, Refusal>,
    source: &Source<'_>,
) -> Result<PhysicalMapping<'h, Mapped<'k>, Madt>, Refusal>
    requires { Gives (λ m. mapped_memory m) memory.now (memory_in source.now.regions.now) }
    ensures { Gives (λ m. bytes_of m) result (gic_table source.now) }
{
    let madt = first::<Madt>(memory, source)?;
    if !describes_gic(madt.bytes()) {
        return Err(Refusal::NoGic);
    }
    Ok(madt)
}

/// Whether an entry of a MADT is of a GIC.
fn describes_gic(table: &[u8]) -> bool
    ensures { result ≡ list_any is_of_gic (entries_of table.now) }
{
    for entry in MadtEntryIter::over(table) {
        if is_of_gic(&entry) {
            return true;
        }
    }
    false
}

/// Whether an entry is of a GIC.
fn is_of_gic(entry: &MadtEntry) -> bool
    ensures { result ≡ is_of_gic entry.now }
{
    match entry {
        MadtEntry::Gicc(_)
        | MadtEntry::Gicd(_)
        | MadtEntry::GicMsiFrame(_)
        | MadtEntry::GicRedistributor(_)
        | MadtEntry::GicInterruptTranslationService(_) => true,
        _ => false,
    }
}

/// The distributor of the GIC that the first valid MADT describes.
pub fn distributor(source: &Source<'_>) -> Result<records::GicDistributor, Refusal>
    ensures { result ≡ distributor_below source.now }
{
    let memory = Mapped::new(source.regions);
    let madt = first::<Madt>(&memory, source)?;
    let distributor = first_distributor(madt.bytes())?;
    Ok(distributor_record(&distributor))
}

/// The first distributor of a MADT's bytes, or why there is none: the malformed front might be it.
fn first_distributor(table: &[u8]) -> Result<GicDistributor, Refusal>
    ensures { result ≡ ok_or (slice_get (filter_map distributor_in (entries_of table.now)) 0)
        (no_distributor table.now) }
{
    let mut entries = MadtEntryIter::over(table);
    while let Some(entry) = entries.next() {
        if let Some(distributor) = distributor_in(&entry) {
            return Ok(distributor);
        }
    }
    if entries.ended_malformed() {
        return Err(Refusal::Acpi(AcpiError::InvalidMadt(MadtError::InvalidEntryLength)));
    }
    Err(Refusal::NoGic)
}

/// The first SPI of a frame and its number of SPIs, or zeros.
fn spis_or(spis: Option<SpiRange>) -> SpiRange
    ensures { result ≡ spis_or spis }
{
    let none = SpiRange { base: 0, count: 0 };
    spis.unwrap_or(none)
}

/// A record of C's of a part of a GIC.
pub trait GicRecord: Copy {
    /// The part.
    type Part: GicPart;

    // The record of a part.
    ghost record_of: { Self.Part → Self };

    /// The record of a part.
    fn of(part: &Self::Part) -> Self
        ensures { result ≡ record_of part.now };
}

/// Lists the parts of one sort of the GIC that the first valid MADT describes.
#[tactic(auto, using(acpi_c_lib::proofs::Parts::all_from))]
pub fn parts<R: GicRecord>(source: &Source<'_>, out: &mut [R]) -> Result<usize, Refusal>
    ensures { Fills result out.old out.new
        (below_gic source.now (λ table. map R.record_of (items_of R.Part.part_in table))) }
{
    parts_from(source, 0, out)
}

/// Lists from the `from`-th on, counted from 0, the parts of one sort of the GIC that the first valid MADT describes.
pub fn parts_from<R: GicRecord>(
    source: &Source<'_>,
    from: usize,
    out: &mut [R],
) -> Result<usize, Refusal>
    ensures { FillsFrom from result out.old out.new
        (below_gic source.now (λ table. map R.record_of (items_of R.Part.part_in table))) }
{
    let memory = Mapped::new(source.regions);
    let madt = gic_madt(&memory, source)?;
    Ok(fill_parts(madt.bytes(), from, out))
}

#[tactic(auto, using(acpi_c_lib::proofs::Written::found_few))]
fn fill_parts<R: GicRecord>(table: &[u8], from: usize, out: &mut [R]) -> usize
    ensures { WritesFrom from result out.old out.new (map R.record_of (items_of R.Part.part_in table.now)) }
{
    let revision = Revision(field(table, 8, 1) as u8);
    fill_part(MadtEntryIter::over(table), &revision, from, out)
}

/// The Revision of a MADT, by which its entries are read.
#[derive(Clone, Copy)]
struct Revision(u8);

impl<R: GicRecord> Listing<Revision, R> for MadtEntryIter<'_> {
    ghost record_of = { λ revision x. option_map R.record_of (R.Part.part_in revision.0 x) };

    ghost left = { λ revision s. map R.record_of (filter_map (R.Part.part_in revision.0) (entries_left s)) };

    ghost gives_first = { λ revision s item t given.
        lists_found R.record_of (R.Part.part_in revision.0) (λ x. entries_left x) s item t given.0 };

    fn record(revision: &Revision, entry: MadtEntry) -> Option<R>
        ensures { result ≡ option_map R.record_of (R.Part.part_in revision.now.0 entry) }
    {
        let part = <R::Part as GicPart>::said(&entry, revision.0)?;
        Some(R::of(&part))
    }
}

impl GicRecord for records::GicCpuInterface {
    type Part = GicCpuInterface;

    ghost record_of = { cpu_interface_record };

    fn of(part: &GicCpuInterface) -> records::GicCpuInterface {
        cpu_interface_record(part)
    }
}

impl GicRecord for Range {
    type Part = GicRedistributors;

    ghost record_of = { redistributors_record };

    fn of(part: &GicRedistributors) -> Range {
        redistributors_record(part)
    }
}

impl GicRecord for records::GicTranslationService {
    type Part = GicTranslationService;

    ghost record_of = { translation_service_record };

    fn of(part: &GicTranslationService) -> records::GicTranslationService {
        translation_service_record(part)
    }
}

impl GicRecord for records::GicMsiFrame {
    type Part = GicMsiFrame;

    ghost record_of = { msi_frame_record };

    fn of(part: &GicMsiFrame) -> records::GicMsiFrame {
        msi_frame_record(part)
    }
}
