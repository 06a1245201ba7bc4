//! Made by scripts/shown: records for C, and what is written of C's, as definitions in specs/ have them.
ghost use Rattle.std.specs.Prelude.{◌≡◌};
ghost use Rattle.acpi_c_devices.specs.Affinities.{memory_affinity, processor_affinity};

use crate::numa::records::{MemoryAffinity, ProcessorAffinity};
use acpi_numa::MemoryRange;

/// The memory of a range (section 5.2.16.2), if that ends below 2^64: else its entry is at fault.
pub(crate) fn memory_affinity(r: &MemoryRange) -> Option<MemoryAffinity>
    ensures { result ≡ memory_affinity r.now }
{
    r.ends_below().then_some(MemoryAffinity {
        address: r.base,
        length: r.length,
        domain: r.domain,
        is_hot_pluggable: r.is_hot_pluggable as u8,
        is_non_volatile: r.is_non_volatile as u8,
        reserved: [0; 2],
    })
}

/// The processor of an entry: of its Type, with this id, in these two domains.
pub(crate) fn processor_affinity(
    kind: u8,
    id: u32,
    domain: u32,
    clock_domain: u32,
) -> ProcessorAffinity
    ensures { result ≡ processor_affinity kind id domain clock_domain }
{
    ProcessorAffinity {
        id,
        domain,
        clock_domain,
        entry_type: kind,
        reserved: [0; 3],
    }
}
