//! Images that are packed from files.
ghost use Rattle.std.specs.Prelude.{◌≡◌, ◌+◌, ◌^◌, ◌<◌, ◌≤◌, ◌++◌, [], length, option_map, flat_map, IfErr, IfNone, IfOk, IfSome, OnOk, Ok, zip};
ghost use Rattle.acpi_base.specs.FromStd.{list_any};
ghost use Rattle.acpi.specs.declared.root.RootKind.TheVariants.{Xsdt};
ghost use Rattle.acpi_base.specs.Words.{IsBytes, end_of, Gives};
ghost use Rattle.acpi_image_reader.specs.Words.{record_spelling, share};
ghost use Rattle.acpi_image.specs.Words.{placed, placed_region, root_length};
ghost use Rattle.acpi_pack_lib.specs.Words.{contents, region_at, RefusesOrRunsOut, all_regions, check_place, check_places, file_of, fixed_of, laid_out, packed_files, packed_tables, regions, IsMemoryFile, IsPacked, entries, listed, OutOfMemory, Dsdt};
ghost use Rattle.acpi_pack_lib.specs.Pack as pack;

use crate::error::{FileError, Refusal};
use crate::place::{check_room, files_at, place, place_one};
use crate::sources::{
    FileBytes, FileRole, bytes_of, check_contents, check_tables, listed_count, of_role,
};
use acpi::PhysicalRecord;
use acpi::fadt::Fadt;
use acpi::root::RootKind;
use acpi_image::PlacedTable;
use acpi_image::write::{put_region, put_root_table, put_rsdp, range_of};
use acpi_image_reader::range;
use std::alloc::Global;

/// The address of the RSDP: the start of the BIOS area that is searched for it first (section 5.2.5.1).
const RSDP: u64 = 0xe0000;

/// The address from which on the other tables are placed: after the BIOS areas.
const FIRST: u64 = 0x100000;

/// Whether two tables share a byte.
#[tactic(auto, using(acpi_image::proofs::Checks::tables_share))]
fn share(one: &PlacedTable<'_>, other: &PlacedTable<'_>) -> bool
    ensures { result ≡ share (placed_region one.now) (placed_region other.now) }
{
    range::shares_byte(range_of(one), range_of(other))
}

/// Whether a table shares a byte with one of these files at their addresses.
fn shares_byte(addresses: &[u64], files: &[FileBytes<'_>], table: &PlacedTable<'_>) -> bool
    ensures { result ≡ list_any (λ f. share (region_at f.0 f.1) (placed_region table.now))
        (zip addresses.now files.now) }
{
    addresses.iter().zip(files).any(|(address, file)| {
        let earlier = PlacedTable {
            address: *address,
            bytes: bytes_of(*file),
        };
        share(&earlier, table)
    })
}

/// Tests the place of the file of this index, after earlier files at their addresses.
///
/// Fails, in this order, with `EndTooLarge` and `Overlap`.
#[tactic(auto, using(crate::proofs::Placing::any_shares), unfolding(crate::specs::Pack::check_place))]
fn check_place(
    index: usize,
    addresses: &[u64],
    files: &[FileBytes<'_>],
    table: &PlacedTable<'_>,
) -> Result<(), Refusal>
    ensures exact { result ≡ check_place index (regions addresses.now (contents files.now))
        (placed_region table.now) }
    ensures ends { OnOk result (end_of (placed_region table.now) < 2 ^ 64) }
{
    if !range_of(table).fits() {
        return Err(Refusal::File(index, FileError::EndTooLarge));
    }
    if shares_byte(addresses, files, table) {
        return Err(Refusal::File(index, FileError::Overlap));
    }
    Ok(())
}

/// Tests the place of each file.
///
/// Fails, files in order, as `check_place` does.
#[tactic(auto, using(crate::proofs::Placing::place_checked, crate::proofs::Placing::regions_past))]
fn check_places(addresses: &[u64], files: &[FileBytes<'_>]) -> Result<(), Refusal>
    ensures { result ≡ check_places 0 [] (regions addresses.now (contents files.now)) }
{
    for index in 0..addresses.len().min(files.len()) {
        let table = PlacedTable {
            address: addresses[index],
            bytes: bytes_of(files[index]),
        };
        check_place(index, &addresses[..index], &files[..index], &table)?;
    }
    Ok(())
}

/// Puts the records of files at their addresses, one after the other.
///
/// Fails with `OutOfMemory`.
#[tactic(auto, using(acpi_image::proofs::Written::each_fits))]
fn put_files(file: &mut Vec<u8>, addresses: &[u64], files: &[FileBytes<'_>]) -> Result<(), Refusal>
    ensures put { let all = regions addresses.now (contents files.now) in
        OnOk result (file.new.items ≡ file.old.items ++ flat_map record_spelling all) }
    ensures refused { IfErr result (λ e. e ≡ OutOfMemory) }
    ensures bytes { OnOk result (IsBytes file.new.items) }
{
    for table in files_at(addresses, files) {
        put_region(file, table.address, table.bytes)?;
    }
    Ok(())
}

/// A file of memory that has each of these files at its physical address, as it is.
///
/// Fails with the first of these that holds: of a file, in order, `Unreadable` if it can't be read or
/// `Empty` if it has no bytes; then of a file, in order, `EndTooLarge` if its address and the number of its
/// bytes add up to more than 2^64 - 1, or `Overlap` if it shares a byte with an earlier one; and if no file
/// is an error, `OutOfMemory` if memory runs out.
#[tactic(auto, unfolding(crate::specs::Pack::packed_files))]
pub fn pack_files(
    alloc: Global,
    addresses: &[u64],
    files: &[FileBytes<'_>],
) -> Result<Vec<u8>, Refusal>
    // The file, or the first error, is the one that is defined; memory runs out only if nothing
    // else fails.
    ensures exact { IfOk result (λ v.
        file_of (packed_files addresses.now (contents files.now)) ≡ Ok v.items) }
    ensures refused { IfErr result (λ e.
        RefusesOrRunsOut (packed_files addresses.now (contents files.now)) e) }
    // The file is the records of the files at their addresses, and is read as the memory of these.
    ensures law { IfOk result (λ v.
        IsMemoryFile (regions addresses.now (contents files.now)) v.items) }
    // Each number in the file is a byte.
    ensures bytes { IfOk result (λ v. IsBytes v.items) }
{
    check_contents(files)?;
    check_places(addresses, files)?;
    let mut file = Vec::new(alloc);
    put_files(&mut file, addresses, files)?;
    Ok(file)
}

/// The DSDT's address in a FADT, its 64-bit field first, or `None` if it isn't as long as a
/// FADT is (section 5.2.9).
#[tactic(auto, unfolding(crate::specs::Pack::dsdt_address_in))]
fn dsdt_address_in(fadt: &[u8]) -> Option<u64>
    ensures { result ≡ pack.dsdt_address_in fadt.now }
{
    if fadt.len() < Fadt::MIN_LENGTH {
        return None;
    }
    Fadt::read(fadt).dsdt_address().ok()
}

/// The DSDT's address in the first FADT among files.
pub(crate) fn dsdt_address(files: &[FileBytes<'_>]) -> Option<u64>
    ensures { result ≡ pack.dsdt_address (listed (contents files.now)) }
{
    for table in of_role(files, FileRole::Listed) {
        if table.bytes.starts_with(b"FACP") {
            return dsdt_address_in(table.bytes);
        }
    }
    None
}

/// The DSDT at the address of the FADT or the command. It is left out without one.
///
/// Fails, in this order, with `EndTooLarge`, `Overlap` if it shares a byte with the RSDP, and
/// `Overlap` for a second DSDT.
fn dsdt_at<'a>(
    address: Option<u64>,
    files: &[FileBytes<'a>],
) -> Result<Option<PlacedTable<'a>>, Refusal>
    ensures exact { Gives (λ d. option_map placed_region d) result
        (pack.dsdt_at address (entries Dsdt 0 (contents files.now))) }
    ensures ends { IfOk result (λ d. IfSome d (λ t. end_of (placed_region t) < 2 ^ 64)) }
{
    let mut found = of_role(files, FileRole::Dsdt);
    let (Some(address), Some(first)) = (address, found.next()) else {
        return Ok(None);
    };
    let dsdt = PlacedTable {
        address,
        bytes: first.bytes,
    };
    check_place(first.index, &[RSDP], &[Some(&[0; 36])], &dsdt)?;
    match found.next() {
        None => Ok(Some(dsdt)),
        Some(second) => Err(Refusal::File(second.index, FileError::Overlap)),
    }
}

/// The place that the other tables keep away from: the DSDT's, or no bytes if there is none.
fn fixed_of<'a>(dsdt: Option<PlacedTable<'a>>) -> PlacedTable<'a>
    ensures { placed_region result ≡ fixed_of (option_map placed_region dsdt.entry) }
{
    match dsdt {
        Some(dsdt) => dsdt,
        None => PlacedTable {
            address: 0,
            bytes: &[],
        },
    }
}

/// Puts the records of tables, one after the other.
///
/// Fails with `OutOfMemory`.
fn put_tables(file: &mut Vec<u8>, tables: &[PlacedTable<'_>]) -> Result<(), Refusal>
    ensures put { OnOk result
        (file.new.items ≡ file.old.items ++ flat_map record_spelling (placed tables.now)) }
    ensures refused { IfErr result (λ e. e ≡ OutOfMemory) }
{
    for table in tables {
        put_region(file, table.address, table.bytes)?;
    }
    Ok(())
}

/// Puts the records of an RSDP of revision 2, the XSDT at an address, the tables that it lists, and the
/// DSDT.
///
/// Fails with `OutOfMemory`.
#[tactic(auto, using(acpi_image::proofs::Written::each_fits))]
fn put_all(
    file: &mut Vec<u8>,
    root: u64,
    tables: &[PlacedTable<'_>],
    dsdt: Option<PlacedTable<'_>>,
) -> Result<(), Refusal>
    requires { root_length Xsdt (length tables.now) < 2 ^ 32 }
    ensures put { let all = all_regions root (placed tables.now) (option_map placed_region dsdt.entry)
        in OnOk result (file.new.items ≡ file.old.items ++ flat_map record_spelling all) }
    ensures refused { IfErr result (λ e. e ≡ OutOfMemory) }
    ensures bytes { OnOk result (IsBytes file.new.items) }
{
    put_rsdp(file, RSDP, 2, root)?;
    put_root_table(file, root, 2, tables)?;
    put_tables(file, tables)?;
    if let Some(dsdt) = dsdt {
        put_region(file, dsdt.address, dsdt.bytes)?;
    }
    Ok(())
}

/// The number of bytes of an XSDT that lists this number of tables, or `None` if that is 2^32 or above.
fn root_length(count: usize) -> Option<usize>
    ensures there { IfSome result (λ n. n ≡ root_length Xsdt count) }
    ensures low { IfSome result (λ n. n < 2 ^ 32) }
    ensures none { IfNone result (2 ^ 32 ≤ root_length Xsdt count) }
{
    let width = RootKind::Xsdt.width();
    if count <= (u32::MAX as usize - 36) / width {
        Some(36 + width * count)
    } else {
        None
    }
}

/// The file of memory that lists the tables among files, and has the DSDT at its address.
///
/// Fails with `NoRoom`, and if none of this is an error, with `OutOfMemory`.
#[tactic(auto, using(crate::proofs::Placing::listed_length), unfolding(crate::specs::Pack::laid_out))]
fn lay_out(
    alloc: Global,
    files: &[FileBytes<'_>],
    dsdt: Option<PlacedTable<'_>>,
) -> Result<Vec<u8>, Refusal>
    requires { IfSome dsdt (λ t. end_of (placed_region t) < 2 ^ 64) }
    ensures exact { IfOk result (λ v. file_of (laid_out (option_map placed_region dsdt.entry)
        (listed (contents files.now))) ≡ Ok v.items) }
    ensures refused { IfErr result (λ e. RefusesOrRunsOut
        (laid_out (option_map placed_region dsdt.entry) (listed (contents files.now))) e) }
    ensures bytes { IfOk result (λ v. IsBytes v.items) }
{
    let fixed = fixed_of(dsdt);
    let Some(length) = root_length(listed_count(files)) else {
        return Err(Refusal::NoRoom);
    };
    let Some(root) = place_one(&fixed, FIRST, length) else {
        return Err(Refusal::NoRoom);
    };
    let first = root + length as u64;
    check_room(files, &fixed, first)?;
    let tables = place(alloc, files, &fixed, first)?;
    let mut file = Vec::new(alloc);
    put_all(&mut file, root, &tables, dsdt)?;
    Ok(file)
}

/// A file of memory that has an RSDP of revision 2 at 0xe0000 (section 5.2.5.3), an XSDT (section 5.2.8) that
/// lists these tables in order, each at a multiple of 16 from 0x100000 on and away from all others, and the
/// DSDT at the address in the first FADT (section 5.2.9). The bytes of tables are kept as they are.
/// A file that no root table lists is left out, as a FACS, a root table and an RSDP, and so is a DSDT for
/// which no FADT has an address.
///
/// Fails with the first of these that holds: of a file, in order, `Unreadable` if it can't be read, `Empty`
/// if it has no bytes, and, unless it is left out as unlisted, `Short` if it has under 36 bytes or fewer than
/// its length field has, or `Long` if it has more; of the DSDT `EndTooLarge` or `Overlap`; `NoRoom` if the
/// tables can't all be listed and placed; and if none of this is an error, `OutOfMemory` if memory runs
/// out.
#[tactic(auto, using(crate::proofs::Packed::tables_packed), unfolding(crate::specs::Pack::packed_tables))]
pub fn pack_tables(alloc: Global, files: &[FileBytes<'_>]) -> Result<Vec<u8>, Refusal>
    // The file, or the first error, is the one that is defined; memory runs out only if nothing
    // else fails.
    ensures exact { IfOk result (λ v. file_of (packed_tables (contents files.now)) ≡ Ok v.items) }
    ensures refused { IfErr result (λ e. RefusesOrRunsOut (packed_tables (contents files.now)) e) }
    // The file is the records of a memory and nothing else; it is read and opened, and with every
    // sum right its valid tables are the files that are listed, in order.
    ensures law { IfOk result (λ v. IsPacked (contents files.now) v.items) }
    // Each number in the file is a byte.
    ensures bytes { IfOk result (λ v. IsBytes v.items) }
{
    check_tables(files)?;
    let dsdt = dsdt_at(dsdt_address(files), files)?;
    lay_out(alloc, files, dsdt)
}
