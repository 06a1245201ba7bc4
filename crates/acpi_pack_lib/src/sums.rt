//! Files that are tables, with their Checksum set.
ghost use Rattle.std.specs.Prelude.{◌≡◌, IfOk, map, option_map, true};
ghost use Rattle.acpi_base.specs.Words.{sum_of};
ghost use Rattle.acpi_pack_lib.specs.Words.{all_summed, contents, has_sum, is_unsummed, summed};

use crate::sources::FileBytes;
use acpi_base::bytes::field;
use acpi_image::sums::set_sum;
use std::alloc::{AllocError, Global};

/// Whether bytes begin as what may have a table's length, but no Checksum at byte 9: a FACS (section 5.2.10), one of
/// the two tables that an FPDT leads to (section 5.2.23), or an RSDP (section 5.2.5.3).
fn is_unsummed(bytes: &[u8]) -> bool
    ensures { result ≡ is_unsummed bytes.now }
{
    bytes.starts_with(b"FACS")
        || bytes.starts_with(b"FBPT")
        || bytes.starts_with(b"S3PT")
        || bytes.starts_with(b"RSD PTR ")
}

/// Whether bytes are one whole table, as its length field has it (section 5.2.6).
fn has_sum(bytes: &[u8]) -> bool
    ensures { result ≡ has_sum bytes.now }
{
    bytes.len() >= 36 && field(bytes, 4, 4) as usize == bytes.len() && !is_unsummed(bytes)
}

/// A copy of bytes. If they are a table, its Checksum, byte 9, is set so that all sum to 0 modulo 256.
///
/// Fails if it runs out of memory.
#[tactic(auto, using(crate::proofs::TableSums::summed_right), unfolding(crate::specs::Sums::summed))]
fn summed(alloc: Global, bytes: &[u8]) -> Result<Vec<u8>, AllocError>
    ensures exact { IfOk result (λ v. v.items ≡ summed bytes.now) }
    ensures law { has_sum bytes.now ≡ true → sum_of (summed bytes.now) ≡ 0 }
{
    let mut copy = Vec::from_slice(alloc, bytes)?;
    if has_sum(bytes) {
        set_sum(&mut copy, 9);
    }
    Ok(copy)
}

/// Copies of files, of those that are tables with their Checksum set.
///
/// Fails if it runs out of memory.
pub(crate) fn all_summed(
    alloc: Global,
    files: &[FileBytes<'_>],
) -> Result<Vec<Option<Vec<u8>>>, AllocError>
    ensures { IfOk result (λ v.
        map (λ c. option_map (λ b. b.items) c) v.items ≡ all_summed (contents files.now)) }
{
    let mut copies = Vec::new(alloc);
    for file in files {
        let copy = match file {
            Some(bytes) => Some(summed(alloc, bytes)?),
            None => None,
        };
        copies.push(copy)?;
    }
    Ok(copies)
}

/// The bytes of copies.
///
/// Fails if it runs out of memory.
pub(crate) fn lent<'c>(
    alloc: Global,
    copies: &'c [Option<Vec<u8>>],
) -> Result<Vec<FileBytes<'c>>, AllocError>
    ensures { IfOk result (λ v.
        contents v.items ≡ map (λ c. option_map (λ b. b.items) c) copies.now) }
{
    let mut files = Vec::new(alloc);
    for copy in copies {
        files.push(match copy {
            Some(bytes) => Some(bytes.as_slice()),
            None => None,
        })?;
    }
    Ok(files)
}
