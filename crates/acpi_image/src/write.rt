//! Files of memory that are written with given tables.
ghost use Rattle.std.specs.Prelude.{IfOk};
ghost use Rattle.acpi_base.specs.Words.{IsBytes};
ghost use Rattle.acpi_image.specs.Words.{WritesOrRunsOut, written, IsWritten, plan};

mod checks;
mod places;
mod records;

pub use crate::error::WriteError;
use checks::check_plan;
pub use places::range_of;
use records::put_records;
pub use records::{put_region, put_root_table, put_rsdp};
use std::alloc::{Allocator, Global};

/// A table that is to be written, and its place.
#[derive(Clone, Copy)]
pub struct PlacedTable<'a> {
    /// The physical address that the table is to be at.
    pub address: u64,
    /// The bytes of the table. Whatever byte 9, Checksum, is here, it is written so that all sum to 0 modulo
    /// 256.
    pub bytes: &'a [u8],
}

/// The file of memory that `write_image` returns, in memory of an allocator.
///
/// Fails as `write_image` does.
#[tactic(auto, unfolding(crate::specs::WriteChecks::written))]
pub fn write_in<A: Allocator + Copy>(
    alloc: A,
    rsdp_address: u64,
    root_address: u64,
    revision: u8,
    tables: &[PlacedTable<'_>],
) -> Result<Vec<u8, A>, WriteError>
    ensures exact { WritesOrRunsOut (λ v. v.items) result
        (written (plan rsdp_address root_address revision tables.now)) }
    ensures bytes { IfOk result (λ v. IsBytes v.items) }
{
    check_plan(alloc, rsdp_address, root_address, revision, tables)?;
    let mut file = Vec::new(alloc);
    put_records(&mut file, rsdp_address, root_address, revision, tables)?;
    Ok(file)
}

/// A file of memory, as `MemoryImage` reads it, that has an RSDP of this revision (section 5.2.5.3), the root
/// table that it leads to, an RSDT for revision 0 and otherwise an XSDT (sections 5.2.7 and 5.2.8), and these
/// tables, which the root table lists in order. Addresses are physical. Byte 9 of each table is set so that
/// the table sums to 0 modulo 256.
///
/// Fails, in this order, with `ZeroRoot` if the root table's address is 0, `BadTable` for the
/// first table that has under 36 bytes, or whose length field is not the number of its bytes, or
/// whose signature or ids are not valid UTF-8, `TooMany` if the root table's length is 2^32 or above,
/// `PointerTooLarge` if for revision 0 the root table's address or a table's is 2^32 or above,
/// `EndTooLarge` if a record's start and length add up to more than 2^64 - 1, `Overlap` if two
/// records share a byte, and `OutOfMemory` if memory runs out.
pub fn write_image(
    alloc: Global,
    rsdp_address: u64,
    root_address: u64,
    revision: u8,
    tables: &[PlacedTable<'_>],
) -> Result<Vec<u8>, WriteError>
    // The file, or the first error, is the one that is defined; memory runs out only if nothing
    // is at fault.
    ensures exact { WritesOrRunsOut (λ v. v.items) result
        (written (plan rsdp_address root_address revision tables.now)) }
    // The file is the records and nothing else; it is read and opened, and its valid tables are
    // these, each with byte 9 set.
    ensures law { let p = plan rsdp_address root_address revision tables.now in
        IfOk result (λ v. IsWritten p v.items) }
    // Each number in the file is a byte.
    ensures bytes { IfOk result (λ v. IsBytes v.items) }
{
    write_in(alloc, rsdp_address, root_address, revision, tables)
}
