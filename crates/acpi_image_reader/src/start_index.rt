//! The starts of regions, in ascending order: the region that an address can be in is found without a
//! walk along the others.
ghost use Rattle.std.specs.Prelude.{◌≡◌, ◌<◌, ◌≤◌, ℕ, List, Some, None, IsSome, IfSome, IfNone, OnOk, [], ◌∷◌, ◌++◌, false, length};
ghost use Rattle.acpi_base.specs.FromStd.{get, nat_cmp};
ghost use Rattle.acpi_base.specs.Words.{Memory};
ghost use Rattle.acpi_image_reader.specs.Words.{shares_any, ListsStarts};

use std::alloc::{AllocError, Allocator};
use std::collections::BTreeMap;

/// The greatest start that is at an address or below it, with the value that is kept there, or `None` if
/// every start is above the address.
pub fn last_up_to<V, A: Allocator>(starts: &BTreeMap<u64, V, A>, address: u64) -> Option<(u64, &V)>
    ensures kept { IfSome result (λ x. get nat_cmp starts.now x.0 ≡ Some x.1.now) }
    ensures low { IfSome result (λ x. x.0 ≤ address) }
    ensures last { IfSome result
        (λ x. (a : ℕ) → a ≤ address → IsSome (get nat_cmp starts.now a) → a ≤ x.0) }
    ensures none { IfNone result ((a : ℕ) → a ≤ address → get nat_cmp starts.now a ≡ None) }
{
    match starts.range(..=address).next_back() {
        Some((start, value)) => Some((*start, value)),
        None => None,
    }
}

/// Adds the start of one more region, which has bytes and shares none with those that are listed.
///
/// Fails if memory for it runs out.
pub fn add_start<V: Drop, A: Allocator + Clone>(
    starts: &mut BTreeMap<u64, V, A>,
    start: u64,
    value: V,
) -> Result<(), AllocError>
    ensures added { OnOk result ((view : V → List ℕ) → (m : Memory)
        → shares_any m (record { start = start; bytes = view value }) ≡ false
        → 0 < length (view value) → ListsStarts view starts.old m
        → ListsStarts view starts.new (m ++ (record { start = start; bytes = view value }) ∷ [])) }
{
    match starts.insert(start, value) {
        Ok(_) => Ok(()),
        Err(_) => Err(AllocError),
    }
}
