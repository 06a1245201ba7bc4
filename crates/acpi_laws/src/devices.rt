//! Laws of the definitions of a DMAR, an IVRS and an SPCR.
ghost use Rattle.std.specs.Prelude.{ℕ, List, Option};
ghost use Rattle.acpi_base.specs.Words.{FlagsAreNumbered};
ghost use Rattle.acpi_iommu.specs.Words.{BlockIsFirst, FrontIsFront, MemoryIsMeant, OneCut, SaysItself, SourceIsFirst, UnitIsFirst, block_size, entry_size, scope_size, structure_size};

/// Proves that each of these laws holds.
pub fn definitions_hold()
    // A structure of a DMAR, a device scope, a block of an IVRS and a device entry each have their length in their own
    // bytes, whatever comes after them.
    ensures structures { SaysItself structure_size }
    ensures scopes { SaysItself scope_size }
    ensures blocks { SaysItself block_size }
    ensures entries { SaysItself entry_size }
    // Bytes are cut into such pieces and a remainder in one way, which is the computed one.
    ensures one_cut { (size : List ℕ → Option ℕ) → SaysItself size → OneCut size }
    // A path is a front of hops exactly if these are the path and others after it.
    ensures front { FrontIsFront }
    // The unit of a device is the first in the table's order one of whose scopes names it, or else the first with
    // INCLUDE_PCI_ALL; that of an I/O APIC or an HPET is the first that has a scope of it.
    ensures unit { UnitIsFirst }
    ensures source { SourceIsFirst }
    // The unit of a device of an IVRS is the first of the best type and the segment that has an entry for it.
    ensures block { BlockIsFirst }
    // All memory that is returned for a device is meant for it, and ends below 2^64.
    ensures memory { MemoryIsMeant }
    // Each named flag of the sets in an SPCR is the power of two of its bit.
    ensures flags { FlagsAreNumbered }
{}
