//! The places that the records of a written image are to be at.
ghost use Rattle.std.specs.Prelude.{◌≡◌, ◌≢◌, ◌+◌, ◌^◌, ◌<◌, ◌∷◌, ◌++◌, [], true, false, nat_lt, length, IfErr, IfOk, OnOk};
ghost use Rattle.acpi_base.specs.FromStd.{list_all, list_any};
ghost use Rattle.acpi_base.specs.Words.{Memory, end_of, range_fits};
ghost use Rattle.acpi_image_reader.specs.Words.{share, shares_any, region_in};
ghost use Rattle.acpi_image.specs.Words.{IsPlaced, place_of, places_of, OutOfMemory};
ghost use Rattle.acpi_image.specs.WriteChecks as checks;

use crate::error::WriteError;
use crate::write::PlacedTable;
use acpi_base::AddressRange;
use acpi_image_reader::range::shares_byte;
use acpi_image_reader::start_index::{add_start, last_up_to};
use std::alloc::{AllocError, Allocator};
use std::collections::BTreeMap;

/// The range of physical memory that a table is to be in.
pub fn range_of(table: &PlacedTable<'_>) -> AddressRange
    ensures address { result.address ≡ table.now.address }
    ensures length { result.length ≡ length table.now.bytes.now }
{
    AddressRange::new(table.address, table.bytes.len() as u64)
}

/// Whether some byte is in a place and in one of the tables.
fn shares_with_any(place: AddressRange, tables: &[PlacedTable<'_>]) -> bool
    ensures { result ≡ list_any (λ t. share (place_of t) (region_in place)) tables.now }
{
    tables
        .iter()
        .any(|table| shares_byte(range_of(table), place))
}

/// Whether some byte is in two of the tables.
#[tactic(auto, using(std::proofs::lemmas::Grind::common_steps, crate::proofs::Checks::any_shares))]
fn some_share(tables: &[PlacedTable<'_>]) -> bool
    ensures { result ≡ checks.some_share (places_of tables.now) }
{
    for index in 0..tables.len() {
        if shares_with_any(range_of(&tables[index]), &tables[index + 1..]) {
            return true;
        }
    }
    false
}

/// Whether a place shares a byte with one of those that are listed by their starts.
fn shares_with_listed<A: Allocator>(starts: &BTreeMap<u64, u64, A>, place: AddressRange) -> bool
    requires { end_of (region_in place) < 2 ^ 64 }
    ensures { (m : Memory) → IsPlaced starts.now m → result ≡ shares_any m (region_in place) }
{
    if place.length == 0 {
        return false;
    }
    match last_up_to(starts, place.address + (place.length - 1)) {
        Some((start, length)) => {
            let last = AddressRange {
                address: start,
                length: *length,
            };
            shares_byte(last, place)
        }
        None => false,
    }
}

/// Lists a place by its start, which shares no byte with those that are listed.
///
/// Fails if memory for it runs out.
fn add_place<A: Allocator + Clone>(
    starts: &mut BTreeMap<u64, u64, A>,
    place: AddressRange,
) -> Result<(), AllocError>
    ensures { OnOk result ((m : Memory) → shares_any m (region_in place) ≡ false
        → IsPlaced starts.old m → IsPlaced starts.new (m ++ (region_in place ∷ []))) }
{
    if place.length == 0 {
        return Ok(());
    }
    add_start(starts, place.address, place.length)?;
    Ok(())
}

/// Whether a table shares a byte with one before it, or with a place that is listed. Up to the first such
/// table it lists the tables too.
///
/// Fails if memory for one runs out.
fn tables_share<A: Allocator + Clone>(
    starts: &mut BTreeMap<u64, u64, A>,
    tables: &[PlacedTable<'_>],
) -> Result<bool, AllocError>
    requires { list_all (λ r. nat_lt (end_of r) (2 ^ 64)) (places_of tables.now) ≡ true }
    ensures { IfOk result (λ b. (m : Memory) → IsPlaced starts.old m
        → b ≡ checks.some_share (m ++ places_of tables.now)) }
{
    for table in tables {
        let place = range_of(table);
        if shares_with_listed(starts, place) {
            return Ok(true);
        }
        add_place(starts, place)?;
    }
    Ok(false)
}

/// Whether some byte is in two of the places, by a list of their starts.
///
/// Fails if memory for the list runs out.
fn some_share_by_starts<A: Allocator + Clone>(
    alloc: A,
    rsdp: AddressRange,
    root: AddressRange,
    tables: &[PlacedTable<'_>],
) -> Result<bool, AllocError>
    requires { list_all (λ r. nat_lt (end_of r) (2 ^ 64))
        (region_in rsdp ∷ region_in root ∷ places_of tables.now) ≡ true }
    ensures { IfOk result (λ b. b ≡ checks.some_share
        (region_in rsdp ∷ region_in root ∷ places_of tables.now)) }
{
    if shares_byte(rsdp, root) {
        return Ok(true);
    }
    let mut starts = BTreeMap::new(alloc);
    add_place(&mut starts, rsdp)?;
    add_place(&mut starts, root)?;
    tables_share(&mut starts, tables)
}

/// Whether some byte is in two of the places, pair by pair: it takes longer, and no memory.
#[tactic(auto, using(crate::proofs::Checks::any_shares))]
fn some_share_by_pairs(rsdp: AddressRange, root: AddressRange, tables: &[PlacedTable<'_>]) -> bool
    ensures { result ≡ checks.some_share
        (region_in rsdp ∷ region_in root ∷ places_of tables.now) }
{
    shares_byte(root, rsdp)
        || shares_with_any(rsdp, tables)
        || shares_with_any(root, tables)
        || some_share(tables)
}

/// Whether each of the tables ends below 2^64.
fn all_fit(tables: &[PlacedTable<'_>]) -> bool
    ensures { result ≡ list_all (λ t. range_fits t.address (length t.bytes.now)) tables.now }
{
    tables.iter().all(|table| range_of(table).fits())
}

/// Tests the places that the records are to be at.
///
/// Fails, in this order, with `EndTooLarge` and `Overlap`.
#[tactic(auto, using(crate::proofs::Checks::all_fit, crate::proofs::Checks::region_fits), unfolding(crate::specs::WriteChecks::check_places))]
pub(super) fn check_places<A: Allocator + Clone>(
    alloc: A,
    rsdp: AddressRange,
    root: AddressRange,
    tables: &[PlacedTable<'_>],
) -> Result<(), WriteError>
    ensures exact { result ≡ checks.check_places
        (region_in rsdp ∷ region_in root ∷ places_of tables.now) }
    ensures named { IfErr result (λ e. e ≢ OutOfMemory) }
{
    if !rsdp.fits() || !root.fits() || !all_fit(tables) {
        return Err(WriteError::EndTooLarge);
    }
    let some_share = match some_share_by_starts(alloc, rsdp, root, tables) {
        Ok(answer) => answer,
        Err(_) => some_share_by_pairs(rsdp, root, tables),
    };
    if some_share {
        return Err(WriteError::Overlap);
    }
    Ok(())
}
