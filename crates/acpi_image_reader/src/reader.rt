//! Reading the records of a file, in order.
ghost use Rattle.std.specs.Prelude.{◌≡◌, ◌≢◌, ◌<◌, false, length, IfErr, IfOk};
ghost use Rattle.acpi_image_reader.specs.declared.error.ImageError.TheVariants.{OutOfMemory};
ghost use Rattle.acpi_base.specs.Words.{Gives};
ghost use Rattle.acpi_image_reader.specs.Words.{GivesOrRunsOut, next_at, records_in, shares_any, region_of, regions_of};

use crate::error::ImageError;
use crate::record::{Record, first_record};
pub use crate::record_list::Records;
use std::alloc::Allocator;

/// The record that the bytes begin with, which shares no byte with an earlier one, and the bytes
/// after it.
///
/// Fails, in this order, with `Truncated`, `EndTooLarge` and `Overlap`.
#[tactic(auto, unfolding(crate::specs::Image::next_at))]
fn next_record<'a, A: Allocator>(
    earlier: &Records<'_, A>,
    bytes: &'a [u8],
) -> Result<(Record<'a>, &'a [u8]), ImageError>
    ensures shorter { IfOk result (λ x. length x.1.now < length bytes.now) }
    ensures named { IfErr result (λ e. e ≢ OutOfMemory) }
    ensures apart { IfOk result
        (λ x. shares_any (regions_of earlier.now.list.items) (region_of x.0) ≡ false) }
    ensures exact { Gives (λ x. (region_of x.0, x.1.now)) result
        (next_at (regions_of earlier.now.list.items) bytes.now) }
{
    let (record, rest) = first_record(bytes)?;
    if earlier.shares_with_any(&record) {
        return Err(ImageError::Overlap);
    }
    Ok((record, rest))
}

/// The records of a file, kept in memory of an allocator.
///
/// Fails at the first record that fails, and of that one, in this order, with `Truncated` if fewer than 16
/// bytes are left or fewer than the record's length after them, `EndTooLarge` if its start and its length add
/// up to more than 2^64 - 1, `Overlap` if it shares a byte with an earlier record, and `OutOfMemory` if memory
/// for it runs out.
pub fn records_of<'a, A: Allocator + Copy>(
    alloc: A,
    bytes: &'a [u8],
) -> Result<Records<'a, A>, ImageError>
    ensures { GivesOrRunsOut bytes.now (λ r. regions_of r.list.items) result
        (records_in bytes.now) }
{
    let mut records = Records::none(alloc);
    let mut rest = bytes;
    while !rest.is_empty() {
        let (next, behind) = next_record(&records, rest)?;
        records = records.with(next)?;
        rest = behind;
    }
    Ok(records)
}
