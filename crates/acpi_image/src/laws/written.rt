//! Laws of every image that is written: each is the contract of a function that does nothing.
ghost use Rattle.std.specs.Prelude.{Ok};
ghost use Rattle.acpi.specs.Words.{hpet_of, valid_headers, found_regions, platform_of};
ghost use Rattle.acpi_image.specs.Words.{SaysOfTables, SumIsSet, WrittenIsRead};

use std::alloc::Allocator;

/// A file that is written is read as it was placed.
pub fn written_is_read<A: Allocator>()
    // If the byte at an offset is set as a writer sets it, all bytes sum to 0 modulo 256.
    ensures sum { SumIsSet }
    // A file that is written is the records of its plan and nothing else. It is read as the memory of these, and opened
    // by the RSDP there, and its valid tables are the plan's, each with byte 9 set.
    ensures read { WrittenIsRead }
    // The headers of the tables in an image that is written are as in every memory with its valid tables.
    ensures headers { SaysOfTables (λ m ps. Ok (valid_headers m ps)) }
    // The platform that the FADT and the MADT describe is that of every such memory.
    ensures platform { SaysOfTables (λ m ps. platform_of {A = A} m ps) }
    // So is the event timer block of the HPET.
    ensures hpet { SaysOfTables hpet_of }
    // So are the regions of the MCFG.
    ensures regions { SaysOfTables found_regions }
{}
