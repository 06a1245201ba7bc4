//! What the SRAT puts into domains (section 5.2.16): memory, processors, generic initiators and Interrupt Translation
//! Services.
ghost use Rattle.std.specs.Prelude.{◌≡◌, Option, filter_map};
ghost use Rattle.acpi_numa.specs.Words.{entries_left};
ghost use Rattle.acpi_c_lib.specs.Words.{Fills, FillsFrom, lists_some};
ghost use Rattle.acpi_c_devices.specs.Words.{SratEntry, affinity_shown, below_srat, counted_if, initiator_shown, its_shown, memory_shown, processor_affinity};

mod shown;

use crate::known::Nothing;
use crate::numa::records::{GenericInitiator, ItsAffinity, MemoryAffinity, ProcessorAffinity};
use acpi_base::bytes::has_bit;
use acpi_c_lib::lists::{Listing, fill_part};
use acpi_c_lib::opening::first;
use acpi_c_lib::records::Source;
use acpi_c_lib::refusal::Refusal;
use acpi_c_lib::regions::Mapped;
use acpi_numa::srat::{SratEntry, SratEntryIter};
use acpi_numa::{Domains, Srat};
use shown::{memory_affinity, processor_affinity};

/// What an entry of one type puts into a domain.
pub trait SratRecord: Copy {
    // The record of an entry, if it is of this type.
    ghost record_in: { SratEntry → Option Self };

    /// The record of an entry, if it is of this type.
    fn of(entry: &SratEntry) -> Option<Self>
        ensures { result ≡ record_in entry.now };
}

impl<R: SratRecord> Listing<Nothing, R> for SratEntryIter<'_> {
    ghost record_of = { λ known. R.record_in };

    ghost left = { λ known s. filter_map R.record_in (entries_left s) };

    ghost gives_first = { λ known s item t given. lists_some R.record_in (λ x. entries_left x) s item t given.0 };

    fn record(_known: &Nothing, entry: SratEntry) -> Option<R>
        ensures { result ≡ R.record_in entry }
    {
        R::of(&entry)
    }
}

/// Lists what the entries of one type of the first valid SRAT put into domains.
#[tactic(auto, using(acpi_c_lib::proofs::Parts::all_from))]
pub fn srat_entries<R: SratRecord>(source: &Source<'_>, out: &mut [R]) -> Result<usize, Refusal>
    ensures { Fills result out.old out.new (below_srat source.now R.record_in) }
{
    srat_entries_from(source, 0, out)
}

/// Lists from the `from`-th on, counted from 0, what the entries of one type of the first valid SRAT put into domains.
#[tactic(auto, using(acpi::proofs::First::filter_map_few))]
pub fn srat_entries_from<R: SratRecord>(
    source: &Source<'_>,
    from: usize,
    out: &mut [R],
) -> Result<usize, Refusal>
    ensures { FillsFrom from result out.old out.new (below_srat source.now R.record_in) }
{
    let memory = Mapped::new(source.regions);
    let srat = first::<Srat>(&memory, source)?;
    Ok(fill_part(Domains::over(srat.bytes()).entries(), &Nothing, from, out))
}

// Memory (section 5.2.16.2). A range that ends at 2^64 or above is none.
impl SratRecord for MemoryAffinity {
    ghost record_in = { memory_shown };

    fn of(entry: &SratEntry) -> Option<MemoryAffinity> {
        memory_affinity(&entry.memory_range()?)
    }
}

// Processors, of three types (sections 5.2.16.1, 5.2.16.3 and 5.2.16.4).
impl SratRecord for ProcessorAffinity {
    ghost record_in = { affinity_shown };

    fn of(entry: &SratEntry) -> Option<ProcessorAffinity> {
        match entry {
            SratEntry::LocalApic(it) => {
                let id = it.apic_id as u32;
                counted_if(
                    it.flags,
                    processor_affinity(0, id, it.domain, it.clock_domain),
                )
            }
            SratEntry::LocalX2Apic(it) => {
                counted_if(
                    it.flags,
                    processor_affinity(2, it.x2apic_id, it.domain, it.clock_domain),
                )
            }
            SratEntry::Gicc(it) => {
                counted_if(
                    it.flags,
                    processor_affinity(3, it.processor_uid, it.domain, it.clock_domain),
                )
            }
            _ => None,
        }
    }
}

// Generic initiators (section 5.2.16.6).
impl SratRecord for GenericInitiator {
    ghost record_in = { initiator_shown };

    fn of(entry: &SratEntry) -> Option<GenericInitiator> {
        match entry {
            SratEntry::GenericInitiator(it) => {
                let device = GenericInitiator {
                    domain: it.domain,
                    is_architectural: it.has_architectural_transactions() as u8,
                    handle_type: it.handle_type,
                    handle: it.device_handle,
                    reserved: [0; 2],
                };
                counted_if(it.flags, device)
            }
            _ => None,
        }
    }
}

/// An item, if the flags of its entry have bit 0, Enabled: else the entry doesn't count.
fn counted_if<R: Copy>(flags: u32, item: R) -> Option<R>
    ensures { result ≡ counted_if flags item }
{
    if has_bit(flags as u64, 0) {
        Some(item)
    } else {
        None
    }
}

// Interrupt Translation Services (section 5.2.16.5).
impl SratRecord for ItsAffinity {
    ghost record_in = { its_shown };

    fn of(entry: &SratEntry) -> Option<ItsAffinity> {
        match entry {
            SratEntry::GicIts(it) => Some(ItsAffinity {
                domain: it.domain,
                its_id: it.its_id,
            }),
            _ => None,
        }
    }
}
