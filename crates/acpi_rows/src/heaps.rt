//! Calls that need memory, over heaps that may be too small.

use crate::out::Out;
use acpi::ManagedSlice;
use linked_list_allocator::LocalHeap;
use std::alloc::Allocator;

/// Calls whose results need memory.
pub(crate) trait Gathers {
    /// Prints what is gathered in memory of an allocator, and how many bytes it holds of a heap.
    fn gather<A: Allocator + Copy>(&self, out: Out<'_>, allocator: A, heap: Option<&LocalHeap>);
}

/// How many bytes of each heap are taken before.
const TAKEN: usize = 16;

/// Prints what is gathered in a heap that has `size` bytes left. They have to be free again afterwards.
pub(crate) fn over<G: Gathers>(out: Out<'_>, gathers: &G, size: u64) {
    if let Ok(heap) = LocalHeap::new(out.alloc(), (size as usize).saturating_add(TAKEN)) {
        let _filled = ManagedSlice::new_in(TAKEN, 0u8, &heap);
        gathers.gather(out, &heap, Some(&heap));
        if heap.used() != TAKEN {
            out.show(&("left allocated", heap.used()));
        }
    }
}

/// Prints how many bytes a heap holds, if there is one and it holds any.
pub(crate) fn held(out: Out<'_>, heap: Option<&LocalHeap>) {
    if let Some(heap) = heap {
        if heap.used() != TAKEN {
            out.show(&("holds", heap.used().wrapping_sub(TAKEN)));
        }
    }
}
