//! Whether a walk over a table finds it malformed.

use crate::entries::own_signature;
use acpi_dump_walk::aml::{Ends, Object};
use acpi_dump_walk::fault::Fault;
use acpi_dump_walk::walk::{Show, ShowObjects, walk_with_objects};
use std::alloc::Global;

/// Whether a part of a table is malformed.
#[derive(Clone, Copy)]
struct Flaws {
    are_some: bool,
}

impl Show for Flaws {
    fn takes_fields(&self) -> bool {
        false
    }

    fn malformed(&mut self, _offset: u64, _fault: Fault) {
        self.are_some = true;
    }
}

impl ShowObjects for Flaws {
    // Any state may come after any other.
    ghost shows = { λ _ _ _. Unit {0} };

    ghost stops = { λ _ _ _ _. Unit {0} };

    fn object(&mut self, _object: &Object<'_>) {}

    fn ends(&mut self, _offset: u64, why: Ends) {
        self.are_some |= why.is_malformed();
    }
}

/// Whether a part of a table doesn't match its layout, or its AML isn't understood for a fault of its own.
pub(crate) fn is_malformed(alloc: Global, table: &[u8]) -> bool {
    let mut flaws = Flaws { are_some: false };
    walk_with_objects(alloc, own_signature(table), table, &mut flaws);
    flaws.are_some
}
