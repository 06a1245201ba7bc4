//! Made by scripts/exports of include/zacpi.h, which has what each call does.
ghost use Rattle.acpi_c_devices.specs.Words.{IsLocalities, affinity_shown, below_srat, distance_below, domain_of_address_below, domain_of_apic_below, domain_of_processor_below, initiator_shown, its_shown, memory_shown, slit_in, srat_faults_below};
ghost use Rattle.acpi_c_lib.specs.Words.{Answers, AnswersList, AnswersListFrom, AnswersSome};

use acpi_c_devices::numa::affinities::{srat_entries, srat_entries_from};
use acpi_c_devices::numa::faults::srat_faults;
use acpi_c_devices::numa::records::{
    GenericInitiator, ItsAffinity, Localities, MemoryAffinity, ProcessorAffinity,
};
use acpi_c_devices::numa::{
    distance, domain_of_address, domain_of_apic, domain_of_processor, localities,
};
use acpi_c_lib::answer::answer;
use acpi_c_lib::entry_faults::EntryFault;
use acpi_c_lib::records::{Signature, Source};

/// Lists the memory that the SRAT puts into domains: its Memory Affinity entries that are enabled, have a byte, and end
/// below 2^64, up to where no entry begins.
#[unsafe(no_mangle)]
pub extern "C" fn zacpi_1_list_memory_affinities(
    source: &Source<'_>,
    out: &mut [MemoryAffinity],
    count: &mut usize,
    named: &mut Signature,
) -> u32
    ensures { AnswersList result out.old out.new count.old count.new named.old named.new
        (below_srat source.now memory_shown) }
{
    answer(srat_entries(source, out), count, named)
}

/// Lists the items of zacpi_list_memory_affinities from the `from`-th on, from 0 on; `count` is of all.
#[unsafe(no_mangle)]
pub extern "C" fn zacpi_1_list_memory_affinities_from(
    source: &Source<'_>,
    from: usize,
    out: &mut [MemoryAffinity],
    count: &mut usize,
    named: &mut Signature,
) -> u32
    ensures { AnswersListFrom from result out.old out.new count.old count.new named.old named.new
        (below_srat source.now memory_shown) }
{
    answer(srat_entries_from(source, from, out), count, named)
}

/// Lists the processors that the SRAT puts into domains, those that the MADT lacks too: its entries of Types 0, 2 and 3
/// that are enabled (bit 0 of Flags), up to where no entry begins; of several for one processor the last counts.
#[unsafe(no_mangle)]
pub extern "C" fn zacpi_1_list_processor_affinities(
    source: &Source<'_>,
    out: &mut [ProcessorAffinity],
    count: &mut usize,
    named: &mut Signature,
) -> u32
    ensures { AnswersList result out.old out.new count.old count.new named.old named.new
        (below_srat source.now affinity_shown) }
{
    answer(srat_entries(source, out), count, named)
}

/// Lists the items of zacpi_list_processor_affinities from the `from`-th on, from 0 on; `count` is of all.
#[unsafe(no_mangle)]
pub extern "C" fn zacpi_1_list_processor_affinities_from(
    source: &Source<'_>,
    from: usize,
    out: &mut [ProcessorAffinity],
    count: &mut usize,
    named: &mut Signature,
) -> u32
    ensures { AnswersListFrom from result out.old out.new count.old count.new named.old named.new
        (below_srat source.now affinity_shown) }
{
    answer(srat_entries_from(source, from, out), count, named)
}

/// Lists the generic initiators that the SRAT puts into domains: its entries of Type 5 that are enabled, up to where no
/// entry begins.
#[unsafe(no_mangle)]
pub extern "C" fn zacpi_1_list_generic_initiators(
    source: &Source<'_>,
    out: &mut [GenericInitiator],
    count: &mut usize,
    named: &mut Signature,
) -> u32
    ensures { AnswersList result out.old out.new count.old count.new named.old named.new
        (below_srat source.now initiator_shown) }
{
    answer(srat_entries(source, out), count, named)
}

/// Lists the domains of Interrupt Translation Services: the SRAT's entries of Type 4, which have no Flags, up to where
/// no entry begins.
#[unsafe(no_mangle)]
pub extern "C" fn zacpi_1_list_its_affinities(
    source: &Source<'_>,
    out: &mut [ItsAffinity],
    count: &mut usize,
    named: &mut Signature,
) -> u32
    ensures { AnswersList result out.old out.new count.old count.new named.old named.new
        (below_srat source.now its_shown) }
{
    answer(srat_entries(source, out), count, named)
}

/// Lists the enabled entries of memory that ends at 2^64 or above, which zacpi_list_memory_affinities leaves out, and
/// last, if bytes are left, where none begins.
#[unsafe(no_mangle)]
pub extern "C" fn zacpi_1_list_srat_faults(
    source: &Source<'_>,
    out: &mut [EntryFault],
    count: &mut usize,
    named: &mut Signature,
) -> u32
    ensures { AnswersList result out.old out.new count.old count.new named.old named.new
        (srat_faults_below source.now) }
{
    answer(srat_faults(source, out), count, named)
}

/// Returns the domain of the memory at an address: of the first enabled entry whose memory contains it.
#[unsafe(no_mangle)]
pub extern "C" fn zacpi_1_domain_of_address(
    source: &Source<'_>,
    address: u64,
    out: &mut u32,
    named: &mut Signature,
) -> u32
    ensures { Answers result out.old out.new named.old named.new (domain_of_address_below source.now address) }
{
    answer(domain_of_address(source, address), out, named)
}

/// Returns the domain of the processor with this APIC ID or X2APIC ID: of the last enabled entry for it (sections
/// 5.2.16.1, whose domain has 8 bits below revision 2, and 5.2.16.3).
#[unsafe(no_mangle)]
pub extern "C" fn zacpi_1_domain_of_apic(
    source: &Source<'_>,
    local_apic_id: u32,
    out: &mut u32,
    named: &mut Signature,
) -> u32
    ensures { Answers result out.old out.new named.old named.new (domain_of_apic_below source.now local_apic_id) }
{
    answer(domain_of_apic(source, local_apic_id), out, named)
}

/// Returns the domain of the processor of a GIC with this ACPI Processor UID: of the last enabled GICC Affinity entry
/// for it (section 5.2.16.4).
#[unsafe(no_mangle)]
pub extern "C" fn zacpi_1_domain_of_processor(
    source: &Source<'_>,
    uid: u32,
    out: &mut u32,
    named: &mut Signature,
) -> u32
    ensures { Answers result out.old out.new named.old named.new (domain_of_processor_below source.now uid) }
{
    answer(domain_of_processor(source, uid), out, named)
}

/// Returns the size of the SLIT, and whether it can be believed.
#[unsafe(no_mangle)]
pub extern "C" fn zacpi_1_get_localities(
    source: &Source<'_>,
    out: &mut Localities,
    named: &mut Signature,
) -> u32
    ensures { AnswersSome IsLocalities result out.old out.new named.old named.new (slit_in source.now) }
{
    answer(localities(source), out, named)
}

/// Returns how far one locality is from another: 10 from itself, 255 unreachable.
#[unsafe(no_mangle)]
pub extern "C" fn zacpi_1_distance(
    source: &Source<'_>,
    from: u64,
    to: u64,
    out: &mut u8,
    named: &mut Signature,
) -> u32
    ensures { Answers result out.old out.new named.old named.new (distance_below source.now from to) }
{
    answer(distance(source, from, to), out, named)
}
