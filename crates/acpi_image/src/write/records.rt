//! The records of a written image, which are put into a file one after the other.
ghost use Rattle.std.specs.Prelude.{◌≡◌, ◌^◌, ◌<◌, ◌≤◌, ◌++◌, length, flat_map, IfErr, OnErr, OnOk, All};
ghost use Rattle.acpi.specs.Words.{kind_of_revision, signature_of, width_of};
ghost use Rattle.acpi_base.specs.Words.{IsBytes, spelling};
ghost use Rattle.acpi_image_reader.specs.Words.{record_spelling};
ghost use Rattle.acpi_image.specs.Words.{HasFront, placed, placed_region, plan, records_of, root_header, root_length, root_record, root_to, root_unsummed, rsdp_record, rsdp_to, starts_of, summed, OutOfMemory};

use crate::error::WriteError;
use crate::sums::{dword, rsdp_to, set_sum};
use crate::write::PlacedTable;
use crate::write::checks::{root_length, signature, width};
use std::alloc::Allocator;

/// Puts bytes after a file's.
///
/// Fails with `OutOfMemory` if memory for them runs out.
fn put<A: Allocator>(file: &mut Vec<u8, A>, bytes: &[u8]) -> Result<(), WriteError>
    ensures put { OnOk result (file.new.items ≡ file.old.items ++ bytes.now) }
    ensures refused { IfErr result (λ e. e ≡ OutOfMemory) }
    ensures kept { OnErr result (file.new.items ≡ file.old.items) }
{
    match file.extend_from_slice(bytes) {
        Ok(()) => Ok(()),
        Err(_) => Err(WriteError::OutOfMemory),
    }
}

/// Puts the low bytes of a number, the lowest first.
///
/// Fails with `OutOfMemory`.
#[tactic(auto, using(crate::proofs::Written::low_bytes))]
fn put_number<A: Allocator>(
    file: &mut Vec<u8, A>,
    number: u64,
    width: usize,
) -> Result<(), WriteError>
    requires { width ≤ 8 }
    ensures put { OnOk result (file.new.items ≡ file.old.items ++ spelling width number) }
    ensures refused { IfErr result (λ e. e ≡ OutOfMemory) }
    ensures kept { OnErr result (file.new.items ≡ file.old.items) }
{
    put(file, &number.to_le_bytes()[..width])
}

/// Puts the start and the length that a record begins with.
///
/// Fails with `OutOfMemory`.
#[tactic(auto, using(crate::proofs::Written::fronts))]
fn put_head<A: Allocator>(file: &mut Vec<u8, A>, start: u64, count: usize) -> Result<(), WriteError>
    ensures put { OnOk result
        (file.new.items ≡ file.old.items ++ spelling 8 start ++ spelling 8 count) }
    ensures refused { IfErr result (λ e. e ≡ OutOfMemory) }
    ensures front { OnErr result
        (HasFront file.old.items (spelling 8 start ++ spelling 8 count) file.new.items) }
{
    put_number(file, start, 8)?;
    put_number(file, count as u64, 8)
}

/// Puts the record of an RSDP at a physical address (section 5.2.5.3), which leads to the root table at
/// `root`: an RSDT for revision 0, otherwise an XSDT.
///
/// Fails with `OutOfMemory` if memory for it runs out.
#[tactic(auto, using(crate::proofs::Written::fronts))]
pub fn put_rsdp<A: Allocator>(
    file: &mut Vec<u8, A>,
    address: u64,
    revision: u8,
    root: u64,
) -> Result<(), WriteError>
    ensures put { OnOk result (file.new.items
        ≡ file.old.items ++ record_spelling (rsdp_record address revision root)) }
    ensures refused { IfErr result (λ e. e ≡ OutOfMemory) }
    // After an error the file has what it had, and after that a front of the record.
    ensures front { OnErr result
        (HasFront file.old.items (record_spelling (rsdp_record address revision root)) file.new.items) }
{
    put_head(file, address, 36)?;
    put(file, &rsdp_to(*b"      ", revision, root))
}

/// A root table's header, whose checksum is 0 (section 5.2.6): an RSDT's for revision 0, otherwise
/// an XSDT's.
#[tactic(auto, unfolding(crate::specs::Written::root_header, acpi_bytes::specs::Bytes::spelling))]
fn root_header(revision: u8, length: usize) -> [u8; 36]
    ensures { result ≡ root_header (signature_of (kind_of_revision revision)) length }
{
    // From the last field to the first, as in `rsdp_unsummed`.
    let mut header = [0; 36];
    header[10..24].copy_from_slice(b"              "); // OEMID, OEM Table ID
    header[8] = 1; // Revision
    header[4..8].copy_from_slice(&dword(length as u64)); // Length
    header[..4].copy_from_slice(&signature(revision).to_bytes()); // Signature
    header
}

/// Puts the addresses of tables, in order, as pointers of this width.
///
/// Fails with `OutOfMemory`.
#[tactic(auto, using(crate::proofs::Written::by_whole))]
fn put_pointers<A: Allocator>(
    file: &mut Vec<u8, A>,
    revision: u8,
    tables: &[PlacedTable<'_>],
) -> Result<(), WriteError>
    ensures put { let width = width_of (kind_of_revision revision) in
        OnOk result (file.new.items
        ≡ file.old.items ++ flat_map (spelling width) (starts_of (placed tables.now))) }
    ensures refused { IfErr result (λ e. e ≡ OutOfMemory) }
    ensures front { OnErr result (HasFront file.old.items
        (flat_map (spelling (width_of (kind_of_revision revision))) (starts_of (placed tables.now)))
        file.new.items) }
{
    let width = width(revision);
    for table in tables {
        put_number(file, table.address, width)?;
    }
    Ok(())
}

/// Puts a root table that lists these tables.
///
/// Fails with `OutOfMemory`.
#[tactic(auto, using(crate::proofs::Written::lengths))]
fn put_table_of_pointers<A: Allocator>(
    file: &mut Vec<u8, A>,
    revision: u8,
    tables: &[PlacedTable<'_>],
) -> Result<(), WriteError>
    requires { root_length (kind_of_revision revision) (length tables.now) < 2 ^ 32 }
    ensures put { let pointers = starts_of (placed tables.now) in
        OnOk result (file.new.items
        ≡ file.old.items ++ root_to (kind_of_revision revision) pointers) }
    ensures refused { IfErr result (λ e. e ≡ OutOfMemory) }
    ensures front { OnErr result (HasFront file.old.items
        (root_unsummed (kind_of_revision revision) (starts_of (placed tables.now))) file.new.items) }
{
    let start = file.len();
    let length = root_length(revision, tables.len());
    put(file, &root_header(revision, length))?;
    put_pointers(file, revision, tables)?;
    set_sum(&mut file[start..], 9); // Checksum
    Ok(())
}

/// Puts the record of the root table at a physical address that lists these tables: an RSDT (section 5.2.7)
/// for revision 0, otherwise an XSDT (section 5.2.8).
///
/// Fails with `OutOfMemory` if memory for it runs out.
#[tactic(auto, using(std::proofs::lemmas::Grind::common_steps, crate::proofs::Written::root_long))]
pub fn put_root_table<A: Allocator>(
    file: &mut Vec<u8, A>,
    address: u64,
    revision: u8,
    tables: &[PlacedTable<'_>],
) -> Result<(), WriteError>
    requires { root_length (kind_of_revision revision) (length tables.now) < 2 ^ 32 }
    ensures put { let pointers = starts_of (placed tables.now) in
        OnOk result (file.new.items ≡ file.old.items
        ++ record_spelling (root_record (kind_of_revision revision) address pointers)) }
    ensures refused { IfErr result (λ e. e ≡ OutOfMemory) }
    // After an error the file has what it had, and after that a front of the record, whose Checksum is 0.
    ensures front { let pointers = starts_of (placed tables.now) in
        OnErr result (HasFront file.old.items (record_spelling (record {
          start = address;
          bytes = root_unsummed (kind_of_revision revision) pointers;
        })) file.new.items) }
{
    put_head(file, address, root_length(revision, tables.len()))?;
    put_table_of_pointers(file, revision, tables)
}

/// Puts the record of bytes at a physical address, as they are.
///
/// Fails with `OutOfMemory` if memory for it runs out.
#[tactic(auto, using(crate::proofs::Written::fronts))]
pub fn put_region<A: Allocator>(
    file: &mut Vec<u8, A>,
    address: u64,
    bytes: &[u8],
) -> Result<(), WriteError>
    ensures put { OnOk result (file.new.items
        ≡ file.old.items ++ record_spelling (record { start = address; bytes = bytes.now })) }
    ensures refused { IfErr result (λ e. e ≡ OutOfMemory) }
    // After an error the file has what it had, and after that a front of the record.
    ensures front { OnErr result (HasFront file.old.items
        (record_spelling (record { start = address; bytes = bytes.now })) file.new.items) }
{
    put_head(file, address, bytes.len())?;
    put(file, bytes)
}

/// Puts the record of a table, with Checksum, byte 9, set.
///
/// Fails with `OutOfMemory`.
fn put_table<A: Allocator>(file: &mut Vec<u8, A>, table: &PlacedTable<'_>) -> Result<(), WriteError>
    requires { 36 ≤ length table.now.bytes.now }
    ensures put { OnOk result (file.new.items
        ≡ file.old.items ++ record_spelling (summed (placed_region table.now))) }
    ensures refused { IfErr result (λ e. e ≡ OutOfMemory) }
{
    put_head(file, table.address, table.bytes.len())?;
    let start = file.len();
    put(file, table.bytes)?;
    set_sum(&mut file[start..], 9); // Checksum
    Ok(())
}

/// Puts the records of an image: of the RSDP, of the root table, and of each table in order.
///
/// Fails with `OutOfMemory`.
#[tactic(auto, using(crate::proofs::Written::each_fits))]
pub(super) fn put_records<A: Allocator>(
    file: &mut Vec<u8, A>,
    rsdp_address: u64,
    root_address: u64,
    revision: u8,
    tables: &[PlacedTable<'_>],
) -> Result<(), WriteError>
    requires short { root_length (kind_of_revision revision) (length tables.now) < 2 ^ 32 }
    requires long { All (λ t. 36 ≤ length t.bytes.now) tables.now }
    ensures put { let p = plan rsdp_address root_address revision tables.now in OnOk result
        (file.new.items ≡ file.old.items ++ flat_map record_spelling (records_of p)) }
    ensures refused { IfErr result (λ e. e ≡ OutOfMemory) }
    ensures bytes { OnOk result (IsBytes file.new.items) }
{
    put_rsdp(file, rsdp_address, revision, root_address)?;
    put_root_table(file, root_address, revision, tables)?;
    for table in tables {
        put_table(file, table)?;
    }
    Ok(())
}
