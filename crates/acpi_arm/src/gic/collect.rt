//! The walks along the entries of a MADT: for the distributor, and for each list.
ghost use Rattle.std.specs.Prelude.{◌≡◌, ◌<◌, length, [], IfOk, IfErr, vec_capacity, vec_len};
ghost use Rattle.acpi_base.specs.Words.{field_of};
ghost use Rattle.acpi_arm.specs.Gic.{distributor_of, items_of};

use super::part::{GicDistributor, GicPart, distributor_in};
use acpi_base::bytes::field;
use acpi_base::madt::MadtEntryIter;
use acpi_base::managed_slice::ManagedSlice;
use acpi_base::{AcpiError, AcpiResult, MadtError};
use std::alloc::{AllocError, Allocator};

/// The first distributor of a MADT's bytes, or `None` if it lists none.
///
/// Fails with `InvalidMadt(InvalidEntryLength)` if the entries end malformed, wherever the distributor
/// is.
pub fn distributor_of(table: &[u8]) -> AcpiResult<Option<GicDistributor>>
    ensures { result ≡ distributor_of table.now }
{
    let mut distributor = None;
    let mut entries = MadtEntryIter::over(table);
    while let Some(entry) = entries.next() {
        if distributor.is_none() {
            distributor = distributor_in(&entry);
        }
    }
    if entries.ended_malformed() {
        return Err(AcpiError::InvalidMadt(MadtError::InvalidEntryLength));
    }
    Ok(distributor)
}

/// How many items of a list the entries contain.
fn count_of<T: GicPart>(table: &[u8], revision: u8) -> usize
    requires { revision ≡ field_of table.now 8 1 }
    ensures { result ≡ length (items_of T.part_in table.now) }
{
    let mut count = 0;
    let mut entries = MadtEntryIter::over(table);
    while let Some(entry) = entries.next() {
        if T::said(&entry, revision).is_some() {
            count += 1;
        }
    }
    count
}

/// An empty list with room for this many items. No memory is requested if there are none.
fn room<T, A: Allocator>(count: usize, allocator: A) -> Result<Vec<T, A>, AllocError>
    ensures items { IfOk result (λ v. v.items ≡ []) }
    ensures len { IfOk result (λ v. vec_len v ≡ 0) }
    ensures capacity { IfOk result (λ v. vec_capacity v ≡ count) }
    ensures refused { IfErr result (λ e. 0 < count) }
{
    if count == 0 {
        return Ok(Vec::new(allocator));
    }
    Vec::with_capacity(allocator, count)
}

/// The items of a list, in order, in memory of an allocator, which is requested once, and only if
/// there is an item.
pub(super) fn collected<T: GicPart, A: Allocator>(
    table: &[u8],
    allocator: A,
) -> Result<ManagedSlice<T, A>, AllocError>
    ensures items { IfOk result (λ s. s ≡ items_of T.part_in table.now) }
    ensures refused { IfErr result (λ e. 0 < length (items_of T.part_in table.now)) }
{
    let revision = field(table, 8, 1) as u8; // Revision
    let mut items = room(count_of::<T>(table, revision), allocator)?;
    let mut entries = MadtEntryIter::over(table);
    while let Some(entry) = entries.next() {
        if let Some(item) = T::said(&entry, revision) {
            items.push_reserved(item);
        }
    }
    Ok(ManagedSlice::from_vec(items))
}
