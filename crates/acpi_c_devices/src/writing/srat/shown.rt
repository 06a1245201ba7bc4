//! Made by scripts/shown: records for C, and what is written of C's, as definitions in specs/ have them.
ghost use Rattle.std.specs.Prelude.{◌≡◌};
ghost use Rattle.acpi_c_devices.specs.WrittenSrat.{range_of};

use crate::numa::records::MemoryAffinity;
use acpi_numa::MemoryRange;

/// A flag is set unless it is 0.
pub(crate) fn range_of(r: &MemoryAffinity) -> MemoryRange
    ensures { result ≡ range_of r.now }
{
    MemoryRange {
        domain: r.domain,
        base: r.address,
        length: r.length,
        is_hot_pluggable: r.is_hot_pluggable != 0,
        is_non_volatile: r.is_non_volatile != 0,
    }
}
