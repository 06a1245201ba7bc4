//! The proximity domain of each range of memory (section 5.2.16.2).
ghost use Rattle.std.specs.Prelude.{◌≡◌, List, [], IfOk, IsOk, length};
ghost use Rattle.acpi_numa.specs.Affinities.{affinities_count, domain_at, ends_below, lies_in, ranges_of};
ghost use Rattle.acpi_numa.specs.declared.srat.affinities.MemoryRange.{MemoryRange};

use super::Srat;
use super::domains::Domains;
use crate::error::{NumaError, NumaResult};
use acpi::AcpiTables;
use acpi_base::managed_slice::ManagedSlice;
use acpi_base::{AddressRange, Lender};
use std::alloc::{AllocError, Allocator, Global};
use std::marker::Model;

/// A range of memory, and the proximity domain that it is in: an enabled Memory Affinity Structure that has
/// bytes (section 5.2.16.2).
#[derive(Clone, Copy, Debug)]
pub struct MemoryRange {
    /// Proximity Domain: the domain of the range.
    pub domain: u32,
    /// Base Address: the physical address of the range's first byte.
    pub base: u64,
    /// Length: how many bytes the range has, at least one in the ranges of `MemoryAffinities`.
    pub length: u64,
    /// Hot Pluggable (bit 1 of the flags): whether the memory can be plugged in while the machine runs.
    pub is_hot_pluggable: bool,
    /// NonVolatile (bit 2 of the flags): whether the memory is non-volatile.
    pub is_non_volatile: bool,
}

impl MemoryRange {
    /// Whether a physical address is in the range: at its base or above, and below base + length as a
    /// whole number.
    pub fn holds(&self, address: u64) -> bool
        ensures { result ≡ lies_in address self.now }
    {
        AddressRange::new(self.base, self.length).holds(address)
    }

    /// Whether the range ends below 2^64.
    pub fn ends_below(&self) -> bool
        ensures { result ≡ ends_below self.now }
    {
        AddressRange::new(self.base, self.length).fits()
    }
}

/// The ranges of memory that a SRAT puts into proximity domains (section 5.2.16.2).
#[derive(Drop)]
pub struct MemoryAffinities<A: Allocator> {
    ranges: ManagedSlice<MemoryRange, A>,
}

/// In contracts a `MemoryAffinities` is the list of its ranges.
impl<A: Allocator> Model for MemoryAffinities<A> {
    ghost Value = { List MemoryRange };

    ghost view = { λ m. m.ranges };
}

impl MemoryAffinities<Global> {
    ghost use Rattle.acpi.specs.Words.{AllowsBelow, FootprintBelow, lookup_ranges, Relocation, of_tables};
    ghost use Rattle.acpi_numa.specs.Affinities.{AffinitiesAsk, found_affinities, srat_kind};
    ghost use Rattle.acpi_numa.specs.Answers.{AnswersOrFull, joined};

    /// The ranges of the first valid SRAT, in the order of the table, in memory of the global allocator:
    /// the ranges of its enabled Memory Affinity Structures that have at least one byte (section 5.2.16.2).
    ///
    /// Fails, in this order, with `Acpi(TableMissing)` if no valid SRAT is listed; with
    /// `InvalidEntryLength` if the entries end before the table does, since half a map is no map; with
    /// `InvalidMemoryRange` if the base and the length of one add up to more than 2^64 - 1; and with
    /// `Acpi(AllocError)` if memory runs out, which it can only if there is a range.
    pub fn new<H: Lender>(alloc: Global, tables: &AcpiTables<'_, H>) -> NumaResult<Self>
        requires { AllowsBelow tables.now (λ m. lookup_ranges m srat_kind) }
        ensures exact { AnswersOrFull (of_tables tables.now AffinitiesAsk)
            result (joined (of_tables tables.now found_affinities)) }
        // It depends on what the lookup of the SRAT depends on.
        ensures footprint { FootprintBelow tables.now (λ m. lookup_ranges m srat_kind) found_affinities
            (λ expected. AnswersOrFull (of_tables tables.now AffinitiesAsk) result (joined expected)) }
        // It is the same wherever the valid tables are.
        ensures relocation { Relocation tables.now found_affinities
            (λ expected. AnswersOrFull (of_tables tables.now AffinitiesAsk) result (joined expected)) }
    {
        MemoryAffinities::new_in(tables, alloc)
    }
}

impl<A: Allocator> MemoryAffinities<A> {
    ghost use Rattle.acpi.specs.Words.{AllowsBelow, FootprintBelow, lookup_ranges, Relocation, of_tables};
    ghost use Rattle.acpi_numa.specs.Affinities.{AffinitiesAsk, IsDomainOf, SomeRange, affinities_of, found_affinities, srat_kind};
    ghost use Rattle.acpi_numa.specs.Answers.{AnswersOrFull, joined};

    /// The ranges of the first valid SRAT, in the order of the table, in memory of an allocator: the ranges of
    /// its enabled Memory Affinity Structures that have at least one byte (section 5.2.16.2).
    ///
    /// Fails, in this order, with `Acpi(TableMissing)` if no valid SRAT is listed; with
    /// `InvalidEntryLength` if the entries end before the table does, since half a map is no map; with
    /// `InvalidMemoryRange` if the base and the length of one add up to more than 2^64 - 1; and with
    /// `Acpi(AllocError)` if memory runs out, which it can only if there is a range.
    pub fn new_in<H: Lender>(tables: &AcpiTables<'_, H>, allocator: A) -> NumaResult<Self>
        requires { AllowsBelow tables.now (λ m. lookup_ranges m srat_kind) }
        ensures exact { AnswersOrFull (of_tables tables.now AffinitiesAsk)
            result (joined (of_tables tables.now found_affinities)) }
        // It depends on what the lookup of the SRAT depends on.
        ensures footprint { FootprintBelow tables.now (λ m. lookup_ranges m srat_kind) found_affinities
            (λ expected. AnswersOrFull (of_tables tables.now AffinitiesAsk) result (joined expected)) }
        // It is the same wherever the valid tables are.
        ensures relocation { Relocation tables.now found_affinities
            (λ expected. AnswersOrFull (of_tables tables.now AffinitiesAsk) result (joined expected)) }
    {
        let srat = tables.find_table::<Srat>()?;
        MemoryAffinities::over(srat.bytes(), allocator)
    }

    /// The ranges in a SRAT's bytes, from the table's first byte on, in memory of an allocator: the ranges of
    /// its enabled Memory Affinity Structures that have at least one byte (section 5.2.16.2). It needs no
    /// handler.
    ///
    /// Fails, in this order, with `InvalidEntryLength` if the entries end before the table does; with
    /// `InvalidMemoryRange` if the base and the length of one add up to more than 2^64 - 1; and with
    /// `Acpi(AllocError)` if memory runs out, which it can only if there is a range.
    pub fn over(table: &[u8], allocator: A) -> NumaResult<Self>
        ensures { AnswersOrFull (SomeRange (affinities_of table.now)) result (affinities_of table.now) }
    {
        let count = counted(table)?;
        let ranges = gathered(table, count, allocator)?;
        Ok(MemoryAffinities {
            ranges: ManagedSlice::from_vec(ranges),
        })
    }

    /// The ranges (section 5.2.16.2), in the order of the table. They may overlap.
    pub fn ranges(&self) -> &[MemoryRange]
        ensures { result.now ≡ self.now }
    {
        self.ranges.as_slice()
    }

    /// Proximity Domain of the memory at a physical address (section 5.2.16.2): that of the first range in
    /// which the address is, or `None` if it is in none.
    #[tactic(auto, using(crate::proofs::Affinities::domain_first))]
    pub fn domain_of(&self, address: u64) -> Option<u32>
        ensures value { result ≡ domain_at self.now address }
        // It is that of the first range in which the address is.
        ensures first { IsDomainOf self.now address result }
    {
        first_domain(self.ranges(), address)
    }
}

/// The domain of the first range in which an address is.
fn first_domain(ranges: &[MemoryRange], address: u64) -> Option<u32>
    ensures { result ≡ domain_at ranges.now address }
{
    ranges
        .iter()
        .find(|range| range.holds(address))
        .map(|range| range.domain)
}

/// How many ranges of memory a SRAT's bytes put into domains, from the table's first byte on.
///
/// Fails, in this order, with `InvalidEntryLength` if the entries end before the table does, and with
/// `InvalidMemoryRange` if one of these ranges ends above 2^64 - 1.
#[tactic(auto, using(crate::proofs::Affinities::ranges_few))]
pub fn counted(table: &[u8]) -> NumaResult<usize>
    ensures { result ≡ affinities_count table.now }
{
    let mut count = 0;
    let mut all_end = true;
    let mut entries = Domains::over(table).entries();
    while let Some(entry) = entries.next() {
        if let Some(range) = entry.memory_range() {
            count += 1;
            all_end = all_end && range.ends_below();
        }
    }
    if entries.ended_malformed() {
        return Err(NumaError::InvalidEntryLength);
    }
    if !all_end {
        return Err(NumaError::InvalidMemoryRange);
    }
    Ok(count)
}

/// The ranges in a table's bytes, in memory that is requested once.
fn gathered<A: Allocator>(
    table: &[u8],
    count: usize,
    allocator: A,
) -> Result<Vec<MemoryRange, A>, AllocError>
    requires { count ≡ length (ranges_of table.now) }
    ensures items { IfOk result (λ v. v.items ≡ ranges_of table.now) }
    ensures none { ranges_of table.now ≡ [] → IsOk result }
{
    let mut ranges = Vec::with_capacity(allocator, count)?;
    let mut entries = Domains::over(table).entries();
    while let Some(entry) = entries.next() {
        if let Some(range) = entry.memory_range() {
            ranges.push_reserved(range);
        }
    }
    Ok(ranges)
}
