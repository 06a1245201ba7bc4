//! The placement of tables.
ghost use Rattle.std.specs.Prelude.{◌≡◌, ◌≢◌, ◌+◌, ◌^◌, ◌<◌, length, IfErr, IfOk, IfSome, Ok, Err};
ghost use Rattle.acpi_image.specs.Words.{placed, placed_region};
ghost use Rattle.acpi_base.specs.Words.{end_of};
ghost use Rattle.acpi_pack_lib.specs.Words.{contents, regions_left, regions, ArePlaced, aligned, place_at, placed_from, room, listed, OutOfMemory};

use crate::error::Refusal;
use crate::sources::{FileBytes, FileRole, bytes_of, of_role};
use acpi_image::PlacedTable;
use std::alloc::Global;

/// The files at their addresses, in order.
#[derive(Drop)]
pub(crate) struct FilesAt<'a, 'f> {
    addresses: &'f [u64],
    files: &'f [FileBytes<'a>],
}

impl<'a> Iterator for FilesAt<'a, '_> {
    ghost use Rattle.acpi_base.specs.FromStd.{YieldsFirstBy, item_count};
    ghost use Rattle.acpi_image.specs.Words.{placed_region};
    ghost use Rattle.acpi_pack_lib.specs.Words.{regions_left};

    type Item = PlacedTable<'a>;

    ghost next_gives = { YieldsFirstBy placed_region (λ s. regions_left s) };

    ghost remaining = { item_count (λ s. regions_left s) };

    fn next(&mut self) -> Option<PlacedTable<'a>> {
        let [address, addresses @ ..] = self.addresses else {
            return None;
        };
        let [file, files @ ..] = self.files else {
            return None;
        };
        self.addresses = addresses;
        self.files = files;
        Some(PlacedTable {
            address: *address,
            bytes: bytes_of(*file),
        })
    }
}

/// The files at their addresses, in order.
pub(crate) fn files_at<'a, 'f>(addresses: &'f [u64], files: &'f [FileBytes<'a>]) -> FilesAt<'a, 'f>
    ensures { regions_left result ≡ regions addresses.now (contents files.now) }
{
    FilesAt { addresses, files }
}

/// The least multiple of 16 from an address on.
fn aligned(address: u128) -> u128
    requires { address < 2 ^ 64 }
    ensures { result ≡ aligned address }
{
    (address + 15) / 16 * 16
}

/// The address of this number of bytes: the least multiple of 16 from an address on, or if they would
/// touch the place that is taken, the least one after that; `None` if they end above 2^64 - 1.
#[tactic(auto, unfolding(crate::specs::Place::place_at, crate::specs::Place::start_at))]
pub(crate) fn place_one(fixed: &PlacedTable<'_>, from: u64, count: usize) -> Option<u64>
    requires { end_of (placed_region fixed.now) < 2 ^ 64 }
    ensures value { result ≡ place_at (placed_region fixed.now) from count }
    ensures ends { IfSome result (λ a. a + count < 2 ^ 64) }
{
    let count = count as u128;
    let behind = fixed.address as u128 + fixed.bytes.len() as u128;
    let first = aligned(from as u128);
    let address = if first + count <= fixed.address as u128 || behind <= first {
        first
    } else {
        aligned(behind)
    };
    if address + count < 1 << 64 {
        Some(address as u64)
    } else {
        None
    }
}

/// Tests that each table that is listed has an address, placed as `place` does.
///
/// Fails with `NoRoom` if one has none.
pub(crate) fn check_room(
    files: &[FileBytes<'_>],
    fixed: &PlacedTable<'_>,
    from: u64,
) -> Result<(), Refusal>
    requires { end_of (placed_region fixed.now) < 2 ^ 64 }
    ensures { result ≡ room (placed_region fixed.now) from (listed (contents files.now)) }
{
    let mut next = from;
    for table in of_role(files, FileRole::Listed) {
        let Some(address) = place_one(fixed, next, table.bytes.len()) else {
            return Err(Refusal::NoRoom);
        };
        next = address + table.bytes.len() as u64;
    }
    Ok(())
}

/// The tables that are listed, from an address on, in order, each at the address that `place_one`
/// returns for it after the one before it.
///
/// Fails with `NoRoom` if one has none, and with `OutOfMemory`.
pub(crate) fn place<'a>(
    alloc: Global,
    files: &[FileBytes<'a>],
    fixed: &PlacedTable<'_>,
    from: u64,
) -> Result<Vec<PlacedTable<'a>>, Refusal>
    requires { end_of (placed_region fixed.now) < 2 ^ 64 }
    ensures exact { IfOk result (λ v. placed_from (placed_region fixed.now) from
        (listed (contents files.now)) ≡ Ok (placed v.items)) }
    ensures refused { IfErr result (λ e. e ≢ OutOfMemory
        → placed_from (placed_region fixed.now) from (listed (contents files.now)) ≡ Err e) }
    ensures count { IfOk result (λ v. length v.items ≡ length (listed (contents files.now))) }
    // They are aligned, one after the other, away from the place that is taken, and fit.
    ensures law { IfOk result (λ v. ArePlaced (placed_region fixed.now) from (placed v.items)) }
{
    let mut placed = Vec::new(alloc);
    let mut next = from;
    for table in of_role(files, FileRole::Listed) {
        let Some(address) = place_one(fixed, next, table.bytes.len()) else {
            return Err(Refusal::NoRoom);
        };
        placed.push(PlacedTable {
            address,
            bytes: table.bytes,
        })?;
        next = address + table.bytes.len() as u64;
    }
    Ok(placed)
}
