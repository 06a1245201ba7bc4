//! The domains that memory and processors are in, by the SRAT, and the distances between localities, by the SLIT.
ghost use Rattle.std.specs.Prelude.{◌≡◌, find};
ghost use Rattle.acpi_numa.specs.Words.{lies_in, ranges_of};
ghost use Rattle.acpi_c_lib.specs.Words.{GivesSome};
ghost use Rattle.acpi_c_devices.specs.Words.{IsLocalities, distance_below, slit_in, no_domain, domain_of_address_below, domain_of_apic_below, domain_of_processor_below};

pub mod affinities;
pub mod faults;
pub mod records;

use crate::numa::records::Localities;
use acpi_c_lib::opening::first;
use acpi_c_lib::records::Source;
use acpi_c_lib::refusal::Refusal;
use acpi_c_lib::regions::Mapped;
use acpi_numa::{Distances, Domains, MemoryRange, Slit, Srat};

/// The domain of the memory at a physical address, by the first valid SRAT.
pub fn domain_of_address(source: &Source<'_>, address: u64) -> Result<u32, Refusal>
    ensures { result ≡ domain_of_address_below source.now address }
{
    let memory = Mapped::new(source.regions);
    let srat = first::<Srat>(&memory, source)?;
    match range_at(srat.bytes(), address) {
        Some(range) if range.ends_below() => Ok(range.domain),
        Some(_) => Err(Refusal::InvalidMemoryRange),
        None => Err(no_domain(srat.bytes())),
    }
}

/// The first range in a SRAT's bytes that holds an address.
fn range_at(table: &[u8], address: u64) -> Option<MemoryRange>
    ensures { result ≡ find (lies_in address) (ranges_of table.now) }
{
    let mut entries = Domains::over(table).entries();
    while let Some(entry) = entries.next() {
        match entry.memory_range() {
            Some(range) if range.holds(address) => return Some(range),
            _ => {}
        }
    }
    None
}

/// Why a SRAT's bytes put something into no domain: the malformed front might.
fn no_domain(table: &[u8]) -> Refusal
    ensures { result ≡ no_domain table.now }
{
    let mut entries = Domains::over(table).entries();
    'all: while let Some(_) = entries.next() {}
    if entries.ended_malformed() {
        Refusal::InvalidSratEntryLength
    } else {
        Refusal::NoDomain
    }
}

/// The domain of the processor whose local APIC or x2APIC has an id, by the first valid SRAT.
pub fn domain_of_apic(source: &Source<'_>, local_apic_id: u32) -> Result<u32, Refusal>
    ensures { result ≡ domain_of_apic_below source.now local_apic_id }
{
    let memory = Mapped::new(source.regions);
    let srat = first::<Srat>(&memory, source)?;
    match Domains::over(srat.bytes()).domain_of_apic(local_apic_id) {
        Some(domain) => Ok(domain),
        None => Err(no_domain(srat.bytes())),
    }
}

/// The domain of the processor of a uid, which has an interface to the GIC, by the first valid SRAT.
pub fn domain_of_processor(source: &Source<'_>, uid: u32) -> Result<u32, Refusal>
    ensures { result ≡ domain_of_processor_below source.now uid }
{
    let memory = Mapped::new(source.regions);
    let srat = first::<Srat>(&memory, source)?;
    match Domains::over(srat.bytes()).domain_of_processor(uid) {
        Some(domain) => Ok(domain),
        None => Err(no_domain(srat.bytes())),
    }
}

/// How far one locality is from another, by the first valid SLIT.
pub fn distance(source: &Source<'_>, from: u64, to: u64) -> Result<u8, Refusal>
    ensures { result ≡ distance_below source.now from to }
{
    let memory = Mapped::new(source.regions);
    let slit = first::<Slit>(&memory, source)?;
    let distances = Distances::over(slit.bytes());
    distances.distance(from, to).ok_or(Refusal::NoDistance)
}

/// How many localities the first valid SLIT has distances of, and whether it can be believed.
pub fn localities(source: &Source<'_>) -> Result<Localities, Refusal>
    ensures { GivesSome IsLocalities result (slit_in source.now) }
{
    let memory = Mapped::new(source.regions);
    let slit = first::<Slit>(&memory, source)?;
    let distances = Distances::over(slit.bytes());
    Ok(Localities {
        localities: distances.localities(),
        is_sane: distances.is_sane() as u8,
        reserved: [0; 7],
    })
}
