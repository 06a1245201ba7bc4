//! The lists of what the units that remap devices' accesses to memory name.
ghost use Rattle.std.specs.Prelude.{◌≡◌, Some, map, option_map, refl};
ghost use Rattle.acpi_iommu.specs.Words.{block_bytes, bytes_of_entry, bytes_of_scope, entries_left, entries_of, hops_left, path_of, scopes_left, scopes_of, structure_bytes};
ghost use Rattle.acpi_c_lib.specs.Words.{Fills, Writes, lists_by};
ghost use Rattle.acpi_c_devices.specs.Words.{dmar_scopes_below, structure_scopes_below, entry_shown, hid_part, ivhd_in, ivrs_entries_below, scope_record, special_or, structure_in};

use crate::iommu::records::{DmarScope, Hop, IvrsEntry};
use crate::known::Nothing;
use acpi_base::bytes::filled;
use acpi_c_lib::lists::{Listing, fill};
use acpi_c_lib::opening::first;
use acpi_c_lib::records::Source;
use acpi_c_lib::refusal::Refusal;
use acpi_c_lib::regions::Mapped;
use acpi_iommu::{
    DeviceEntry, DeviceEntryIter, DeviceScope, DeviceScopeIter, Dmar, DmarStructure, DmarUnits,
    HopIter, Ivrs, IvrsBlock, IvrsBlocks, SpecialDevice,
};

// ---- the DMAR

/// Lists the device scopes of the `index`-th unit of the first valid DMAR, counted from 0 (section 8.3.1).
pub fn dmar_scopes(
    source: &Source<'_>,
    index: usize,
    out: &mut [DmarScope],
) -> Result<usize, Refusal>
    ensures { Fills result out.old out.new (dmar_scopes_below source.now index) }
{
    dmar_structure_scopes(source, 0, index, out) // Type 0, a DRHD
}

/// Lists the device scopes of the `index`-th structure of a type of the first valid DMAR, counted from 0 (section
/// 8.3.1).
pub fn dmar_structure_scopes(
    source: &Source<'_>,
    structure_type: u16,
    index: usize,
    out: &mut [DmarScope],
) -> Result<usize, Refusal>
    ensures { Fills result out.old out.new (structure_scopes_below source.now structure_type index) }
{
    let memory = Mapped::new(source.regions);
    let dmar = first::<Dmar>(&memory, source)?;
    let structure = nth_structure(dmar.bytes(), structure_type, index).ok_or(Refusal::NoIommu)?;
    Ok(fill_scopes(&structure, out))
}

/// The `index`-th structure of a type of a DMAR, counted from 0.
fn nth_structure(table: &[u8], kind: u16, index: usize) -> Option<DmarStructure<'_>>
    ensures { option_map (λ e. structure_bytes e) result ≡ structure_in kind table.now index }
{
    let mut before = index;
    let mut structures = DmarUnits::over(table).structures();
    while let Some(structure) = structures.next() {
        if structure.kind() == kind {
            if before == 0 {
                return Some(structure);
            }
            before -= 1;
        }
    }
    None
}

/// Writes the scopes of a structure.
fn fill_scopes(structure: &DmarStructure<'_>, out: &mut [DmarScope]) -> usize
    ensures { Writes result out.old out.new (map scope_record (scopes_of (structure_bytes structure.now))) }
{
    fill(structure.scopes(), &(), out)
}

impl Listing<(), DmarScope> for DeviceScopeIter<'_> {
    ghost record_of = { λ known x. Some (scope_record (bytes_of_scope x)) };

    ghost left = { λ known s. map scope_record (scopes_left s) };

    ghost gives_first = { λ known s item t given. lists_by bytes_of_scope (λ x. Some (scope_record x))
        (map scope_record) (λ u. scopes_left u) refl (λ x xs. refl) s item t given.0 };

    fn record(_known: &(), scope: DeviceScope<'_>) -> Option<DmarScope>
        ensures { result ≡ Some (scope_record (bytes_of_scope scope.entry)) }
    {
        let none = Hop {
            device: 0,
            function: 0,
        };
        let mut path = [none; 16];
        let path_length = fill_path(&scope, &mut path);
        Some(DmarScope {
            path_length,
            scope_type: scope.kind(),
            flags: scope.flags(),
            enumeration_id: scope.enumeration_id(),
            bus: scope.start_bus(),
            path,
            reserved: [0; 4],
        })
    }
}

/// Writes the hops of a scope's path.
#[tactic(auto, using(crate::proofs::IommuLists::path_few))]
fn fill_path(scope: &DeviceScope<'_>, out: &mut [Hop]) -> usize
    ensures { Writes result out.old out.new (path_of (bytes_of_scope scope.now)) }
{
    fill(scope.hops(), &Nothing, out)
}

impl Listing<Nothing, Hop> for HopIter<'_> {
    ghost record_of = { λ known x. Some x };

    ghost left = { λ known s. hops_left s };

    ghost gives_first = { λ known s item t given. lists_by (λ x. x) (λ x. Some x) (λ xs. xs) (λ u. hops_left u) refl
        (λ x xs. refl) s item t given };

    fn record(_known: &Nothing, hop: Hop) -> Option<Hop>
        ensures { result ≡ Some hop }
    {
        Some(hop)
    }
}

// ---- the IVRS

/// Lists the device entries of a unit of the first valid IVRS, by the unit's index (section 5.2).
pub fn ivrs_entries(
    source: &Source<'_>,
    index: usize,
    out: &mut [IvrsEntry],
) -> Result<usize, Refusal>
    ensures { Fills result out.old out.new (ivrs_entries_below source.now index) }
{
    let memory = Mapped::new(source.regions);
    let ivrs = first::<Ivrs>(&memory, source)?;
    let unit = nth_ivhd(ivrs.bytes(), index).ok_or(Refusal::NoIommu)?;
    Ok(fill_entries(&unit, out))
}

/// The unit of an IVRS at an index, counted from 0.
fn nth_ivhd(table: &[u8], index: usize) -> Option<IvrsBlock<'_>>
    ensures { option_map (λ b. block_bytes b) result ≡ ivhd_in table.now index }
{
    let mut before = index;
    let mut blocks = IvrsBlocks::over(table).blocks();
    while let Some(block) = blocks.next() {
        if block.ivhd().is_some() {
            if before == 0 {
                return Some(block);
            }
            before -= 1;
        }
    }
    None
}

/// Writes the device entries of a block.
#[tactic(auto, using(crate::proofs::IommuLists::entries_few))]
fn fill_entries(block: &IvrsBlock<'_>, out: &mut [IvrsEntry]) -> usize
    ensures { Writes result out.old out.new (map entry_shown (entries_of (block_bytes block.now))) }
{
    fill(block.entries(), &(), out)
}

impl Listing<(), IvrsEntry> for DeviceEntryIter<'_> {
    ghost record_of = { λ known x. Some (entry_shown (bytes_of_entry x)) };

    ghost left = { λ known s. map entry_shown (entries_left s) };

    ghost gives_first = { λ known s item t given. lists_by bytes_of_entry (λ x. Some (entry_shown x))
        (map entry_shown) (λ u. entries_left u) refl (λ x xs. refl) s item t given.0 };

    fn record(_known: &(), entry: DeviceEntry<'_>) -> Option<IvrsEntry>
        ensures { result ≡ Some (entry_shown (bytes_of_entry entry.entry)) }
    {
        let special = special_or(&entry);
        let unique_id = entry.unique_id();
        Some(IvrsEntry {
            unique_id_length: unique_id.len(),
            extended_settings: entry.extended_settings().unwrap_or(0),
            first: entry.first(),
            last: entry.last(),
            source_id: special.source,
            entry_type: entry.kind(),
            settings: entry.settings(),
            handle: special.handle,
            variety: special.variety,
            hardware_id: hid_part(&entry, 4), // Hardware ID
            compatible_id: hid_part(&entry, 12), // Compatible ID
            unique_id_format: entry.unique_id_format().unwrap_or(0),
            unique_id: filled(unique_id, 0),
            reserved: 0,
        })
    }
}

/// A special device's fields, or of another entry zeros and the alias, if it has one.
fn special_or(entry: &DeviceEntry<'_>) -> SpecialDevice
    ensures { result ≡ special_or (bytes_of_entry entry.now) }
{
    let none = SpecialDevice {
        handle: 0,
        source: entry.alias().unwrap_or(0),
        variety: 0,
    };
    entry.special().unwrap_or(none)
}

/// Eight bytes of an ACPI HID device, type 0xf0; zeros of others.
fn hid_part(entry: &DeviceEntry<'_>, offset: usize) -> [u8; 8]
    ensures { result ≡ hid_part (bytes_of_entry entry.now) offset }
{
    if entry.kind() == 0xf0 {
        filled(entry.bytes(), offset)
    } else {
        [0; 8]
    }
}
