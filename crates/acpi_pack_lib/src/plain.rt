//! Plain memory of an image: the bytes of its records, each at its distance from the first address.
ghost use Rattle.std.specs.Prelude.{◌≡◌, ◌-◌, IfErr, IfOk, length};
ghost use Rattle.acpi_base.specs.FromStd.{AllByRecursion};
ghost use Rattle.acpi_image_reader.specs.Words.{region_of, regions_of};
ghost use Rattle.acpi_pack_lib.specs.Words.{HasNoPlain, IsPlainOf, LiesIn, end_in, first_in, with_bytes, with_regions};

use crate::error::Refusal;
use acpi_image::{MemoryImage, Record};
use std::alloc::Global;

/// The most bytes that plain memory may have.
const MAX_LENGTH: u128 = 1 << 30;

/// The first address that a record has, or 2^64 - 1 if there is none.
pub(crate) fn first_address(records: &[Record<'_>]) -> u64
    ensures { result ≡ first_in (regions_of records.now) }
{
    let mut first = u64::MAX;
    for record in records {
        if record.start < first {
            first = record.start;
        }
    }
    first
}

/// The address after the last record, or 0 if there is none.
fn end_address(records: &[Record<'_>]) -> u128
    ensures { result ≡ end_in (regions_of records.now) }
{
    let mut end = 0;
    for record in records {
        let after = record.start as u128 + record.bytes.len() as u128;
        if end < after {
            end = after;
        }
    }
    end
}

/// Puts a record's bytes into bytes that begin at an address.
fn put_record(bytes: &mut [u8], first: u64, placed: &Record<'_>)
    requires { LiesIn first (length bytes.old) (region_of placed.now) }
    ensures put { bytes.new ≡ with_bytes bytes.old (placed.now.start - first) placed.now.bytes.now }
    ensures count { length bytes.new ≡ length bytes.old }
{
    let offset = (placed.start - first) as usize;
    bytes[offset..offset + placed.bytes.len()].copy_from_slice(placed.bytes);
}

/// Puts the bytes of records, in order, into bytes that begin at an address.
fn put_records(bytes: &mut [u8], first: u64, records: &[Record<'_>])
    requires { AllByRecursion (LiesIn first (length bytes.old)) (regions_of records.now) }
    ensures { bytes.new ≡ with_regions first bytes.old (regions_of records.now) }
{
    for record in records {
        put_record(bytes, first, record);
    }
}

/// The plain memory of an image: the bytes of its records, each at its distance from the first address, and zeros
/// between them.
///
/// Fails with `TooLarge` if there are more than 2^30 bytes from the first address to the last, and with
/// `OutOfMemory` if memory runs out.
#[tactic(auto, using(crate::proofs::Spans::lie_in), unfolding(crate::specs::Plain::plain_of))]
pub(crate) fn plain_of(alloc: Global, image: &[u8]) -> Result<Vec<u8>, Refusal>
    ensures exact { IfOk result (λ v. IsPlainOf image.now v.items) }
    ensures refused { IfErr result (λ e. HasNoPlain image.now e) }
{
    let Ok(memory) = MemoryImage::from_bytes(alloc, image) else {
        return Err(Refusal::OutOfMemory);
    };
    let records = memory.records();
    let first = first_address(records);
    let count = end_address(records).saturating_sub(first as u128);
    if count > MAX_LENGTH {
        return Err(Refusal::TooLarge);
    }
    let Ok(mut bytes) = vec![in alloc; 0u8; count as usize] else {
        return Err(Refusal::OutOfMemory);
    };
    put_records(&mut bytes, first, records);
    Ok(bytes)
}
