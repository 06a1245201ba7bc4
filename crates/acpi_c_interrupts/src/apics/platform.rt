//! The interrupt model with all its lists at once: the entries of the MADT are walked along once to count them, and
//! once to write them.
ghost use Rattle.std.specs.Prelude.{◌≡◌, ◌+◌, ◌^◌, ◌<◌, ◌≤◌, List, length, filter_map};
ghost use Rattle.acpi_base.specs.FromStd.{cons_option};
ghost use Rattle.acpi_base.specs.Words.{entries_of};
ghost use Rattle.acpi_c_lib.specs.Words.{items_beside, put_from};
ghost use Rattle.acpi_c_interrupts.specs.Words.{AtSamePlaces, CountsBeside, below_apics, below_known, counts_of, io_apic_in, nmi_line_in, nmi_source_in, override_in, processors_below, processors_of};

use crate::apics::madt::known_madt;
use crate::apics::model::known_model;
use crate::apics::records::{
    InterruptModel, InterruptSourceOverride, IoApic, NmiLine, NmiSource, PlatformLists, Processor,
};
use crate::apics::{MadtRecord, boot_first, processor_in};
use acpi_base::bytes::field;
use acpi_base::madt::{MadtEntry, MadtEntryIter};
use acpi_c_lib::lists::put;
use acpi_c_lib::records::Source;
use acpi_c_lib::refusal::Refusal;
use acpi_c_lib::regions::Mapped;

/// The model of a machine with APICs, with its lists, each as the call for it alone returns it. If it fails, nothing is
/// written.
pub fn platform(
    source: &Source<'_>,
    lists: &mut PlatformLists<'_>,
) -> Result<InterruptModel, Refusal>
    ensures model { result ≡ below_known source.now counts_of }
    ensures processors { lists.new.processors.now
        ≡ put_from lists.old.processors.now 0 (items_beside result (processors_below source.now)) }
    ensures io_apics { lists.new.io_apics.now
        ≡ put_from lists.old.io_apics.now 0 (items_beside result (below_apics source.now (filter_map io_apic_in))) }
    ensures overrides { lists.new.overrides.now
        ≡ put_from lists.old.overrides.now 0
        (items_beside result (below_apics source.now (filter_map override_in))) }
    ensures nmi_sources { lists.new.nmi_sources.now
        ≡ put_from lists.old.nmi_sources.now 0
        (items_beside result (below_apics source.now (filter_map nmi_source_in))) }
    ensures nmi_lines { lists.new.nmi_lines.now
        ≡ put_from lists.old.nmi_lines.now 0 (items_beside result (below_apics source.now (filter_map nmi_line_in))) }
    ensures counts { CountsBeside lists.old lists.new result }
    ensures places { AtSamePlaces lists.old lists.new }
{
    let memory = Mapped::new(source.regions);
    let found = known_madt(&memory, source)?;
    write_all(
        found.madt.bytes(),
        lists.processors,
        lists.io_apics,
        lists.overrides,
        lists.nmi_sources,
        lists.nmi_lines,
    );
    let model = known_model(&found);
    lists.processors_count = model.processors;
    lists.io_apics_count = model.io_apics;
    lists.overrides_count = model.overrides;
    lists.nmi_sources_count = model.nmi_sources;
    lists.nmi_lines_count = model.nmi_lines;
    Ok(model)
}

/// Writes each list as far as the capacity reaches.
fn write_all(
    table: &[u8],
    processors: &mut [Processor],
    io_apics: &mut [IoApic],
    overrides: &mut [InterruptSourceOverride],
    nmi_sources: &mut [NmiSource],
    nmi_lines: &mut [NmiLine],
)
    ensures processors { processors.new ≡ put_from processors.old 0 (processors_of table.now) }
    ensures io_apics { io_apics.new ≡ put_from io_apics.old 0 (filter_map io_apic_in (entries_of table.now)) }
    ensures overrides { overrides.new ≡ put_from overrides.old 0 (filter_map override_in (entries_of table.now)) }
    ensures nmi_sources { nmi_sources.new
        ≡ put_from nmi_sources.old 0 (filter_map nmi_source_in (entries_of table.now)) }
    ensures nmi_lines { nmi_lines.new ≡ put_from nmi_lines.old 0 (filter_map nmi_line_in (entries_of table.now)) }
{
    let revision = field(table, 8, 1) as u8; // Revision
    let mut processor = 0;
    let mut io_apic = 0;
    let mut wiring = 0;
    let mut nmi_source = 0;
    let mut nmi_line = 0;
    for entry in MadtEntryIter::over(table) {
        match entry {
            MadtEntry::LocalApic(_) | MadtEntry::LocalX2Apic(_) => {
                processor = add(processor_in(revision, &entry), processors, processor);
            }
            MadtEntry::IoApic(_) => io_apic = add(IoApic::said(&entry), io_apics, io_apic),
            MadtEntry::InterruptSourceOverride(_) => {
                wiring = add(InterruptSourceOverride::said(&entry), overrides, wiring);
            }
            MadtEntry::NmiSource(_) => {
                nmi_source = add(NmiSource::said(&entry), nmi_sources, nmi_source);
            }
            MadtEntry::LocalApicNmi(_) | MadtEntry::X2ApicNmi(_) => {
                nmi_line = add(NmiLine::said(&entry), nmi_lines, nmi_line);
            }
            _ => {}
        }
    }
    boot_first(processors, processor);
}

/// Writes the record of an entry at an index, if it has one, and returns the index of the next.
#[inline(always)]
fn add<R: Copy>(read_record: Option<R>, out: &mut [R], at: usize) -> usize
    requires { at < 2 ^ 63 }
    ensures written { (more : List R) → put_from out.new result more
        ≡ put_from out.old at (cons_option read_record more) }
    ensures count { (more : List R) → result + length more ≡ at + length (cons_option read_record more) }
    ensures next { result ≤ at + 1 }
{
    match read_record {
        Some(record) => {
            put(out, at, record);
            at + 1
        }
        None => at,
    }
}
