//! The memory that is reserved for a device (section 8.4).

use super::fields::Rmrr;
use super::scope::Hop;
use super::structure::DmarStructureIter;

/// The ranges of memory that a DMAR reserves for a device, in order (section 8.4).
#[derive(Clone, Copy)]
pub struct ReservedIter<'a, 'b> {
    structures: DmarStructureIter<'a>,
    segment: u16,
    bus: u8,
    hops: &'b [Hop],
}

impl<'a, 'b> ReservedIter<'a, 'b> {
    ghost use Rattle.std.specs.Prelude.{◌≡◌};
    ghost use Rattle.acpi_iommu.specs.Words.{structures_left, reserved_in, reserved_left};

    /// The ranges among structures for the device that these hops reach from a bus of a segment.
    pub(super) fn over(
        structures: DmarStructureIter<'a>,
        segment: u16,
        bus: u8,
        hops: &'b [Hop],
    ) -> Self
        ensures { reserved_left result ≡ reserved_in segment bus hops.now (structures_left structures.entry) }
    {
        ReservedIter {
            structures,
            segment,
            bus,
            hops,
        }
    }
}

impl Iterator for ReservedIter<'_, '_> {
    ghost use Rattle.acpi_base.specs.FromStd.{YieldsFirst, item_count};
    ghost use Rattle.acpi_iommu.specs.Words.{reserved_left};

    type Item = Rmrr;

    ghost next_gives = { YieldsFirst (λ s. reserved_left s) };

    ghost remaining = { item_count (λ s. reserved_left s) };

    fn next(&mut self) -> Option<Rmrr> {
        while let Some(structure) = self.structures.next() {
            if let Some(range) = structure.reserved_for(self.segment, self.bus, self.hops) {
                return Some(range);
            }
        }
        None
    }
}
