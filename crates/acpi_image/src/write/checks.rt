//! The checks of an image that is to be written.
ghost use Rattle.std.specs.Prelude.{◌≡◌, ◌≢◌, ◌^◌, ◌<◌, ◌∷◌, nat_lt, length, IfErr};
ghost use Rattle.acpi_base.specs.FromStd.{list_all};
ghost use Rattle.acpi_image.specs.WriteChecks as checks;
ghost use Rattle.acpi_image.specs.Words.{placed, plan, root_length, starts_of, OutOfMemory};
ghost use Rattle.acpi.specs.Words.{kind_of_revision, signature_of, width_of};

use crate::error::WriteError;
use crate::write::PlacedTable;
use crate::write::places::check_places;
use acpi::root::RootKind;
use acpi_base::bytes::{field, is_text};
use acpi_base::{AddressRange, Signature};
use std::alloc::Allocator;

/// Whether bytes are a table, whatever their sum is.
#[tactic(auto, unfolding(crate::specs::WriteChecks::is_table))]
fn is_table(bytes: &[u8]) -> bool
    ensures { result ≡ checks.is_table bytes.now }
{
    bytes.len() >= 36
        && field(bytes, 4, 4) == bytes.len() as u64 // Length
        && is_text(&bytes[..4]) // Signature
        && is_text(&bytes[10..16]) // OEMID
        && is_text(&bytes[16..24]) // OEM Table ID
}

/// Tests the bytes of each table.
///
/// Fails with `BadTable` for the first whose bytes are not a table.
fn check_tables(tables: &[PlacedTable<'_>]) -> Result<(), WriteError>
    ensures exact { result ≡ checks.check_tables 0 (placed tables.now) }
    ensures named { IfErr result (λ e. e ≢ OutOfMemory) }
{
    for (index, table) in tables.iter().enumerate() {
        if !is_table(table.bytes) {
            return Err(WriteError::BadTable(index));
        }
    }
    Ok(())
}

/// Whether each table's address is below 2^32.
fn all_low(tables: &[PlacedTable<'_>]) -> bool
    ensures { result ≡ list_all (λ t. nat_lt t.address (2 ^ 32)) tables.now }
{
    tables.iter().all(|table| table.address < 1 << 32)
}

/// Whether a root table of this revision can name its own address and the tables'.
#[tactic(auto, using(crate::proofs::Checks::all_low))]
fn pointers_fit(revision: u8, root_address: u64, tables: &[PlacedTable<'_>]) -> bool
    ensures { result ≡ checks.pointers_fit revision
        (root_address ∷ starts_of (placed tables.now)) }
{
    revision != 0 || (root_address <= u32::MAX as u64 && all_low(tables))
}

/// The signature of the root table: the RSDT's for revision 0, else the XSDT's.
pub(super) fn signature(revision: u8) -> Signature
    ensures { result ≡ signature_of (kind_of_revision revision) }
{
    RootKind::of_revision(revision).signature()
}

/// How many bytes a pointer of the root table has.
pub(super) fn width(revision: u8) -> usize
    ensures { result ≡ width_of (kind_of_revision revision) }
{
    RootKind::of_revision(revision).width()
}

/// Whether the length of a root table with a number of pointers is below 2^32.
fn is_short(revision: u8, count: usize) -> bool
    ensures { result ≡ nat_lt (root_length (kind_of_revision revision) count) (2 ^ 32) }
{
    count <= (u32::MAX as usize - 36) / width(revision)
}

/// How many bytes the root table has.
pub(super) fn root_length(revision: u8, count: usize) -> usize
    requires { root_length (kind_of_revision revision) count < 2 ^ 32 }
    ensures { result ≡ root_length (kind_of_revision revision) count }
{
    36 + width(revision) * count
}

/// Tests what is to be written.
///
/// Fails as `write_image` does, but for `OutOfMemory`.
#[tactic(auto, unfolding(crate::specs::WriteChecks::check_plan))]
pub(super) fn check_plan<A: Allocator + Clone>(
    alloc: A,
    rsdp_address: u64,
    root_address: u64,
    revision: u8,
    tables: &[PlacedTable<'_>],
) -> Result<(), WriteError>
    ensures exact { result ≡ checks.check_plan (plan rsdp_address root_address revision tables.now) }
    ensures named { IfErr result (λ e. e ≢ OutOfMemory) }
{
    if root_address == 0 {
        return Err(WriteError::ZeroRoot);
    }
    check_tables(tables)?;
    if !is_short(revision, tables.len()) {
        return Err(WriteError::TooMany);
    }
    if !pointers_fit(revision, root_address, tables) {
        return Err(WriteError::PointerTooLarge);
    }
    let rsdp = AddressRange {
        address: rsdp_address,
        length: 36,
    };
    let root = AddressRange {
        address: root_address,
        length: root_length(revision, tables.len()) as u64,
    };
    check_places(alloc, rsdp, root, tables)
}
