//! Made by scripts/exports of include/zacpi.h, which has what each call does.
ghost use Rattle.acpi_c_lib.specs.Words.{AnswersClip, AnswersPlain, located};

use acpi_c_lib::answer::answer_plain;
use acpi_c_lib::clip::clip_ranges;
use acpi_c_lib::records::{Place, Range};
use acpi_c_lib::regions::{Region, locate};

/// Lists the ranges to make regions of, from ranges in any order: sorted, joined where they overlap or touch, clipped
/// to `window`, without what is in `without` (the kernel's image, and whatever is written while calls run), and none
/// empty.
#[unsafe(no_mangle)]
pub extern "C" fn zacpi_1_clip_ranges(
    ranges: &mut [Range],
    without: &mut [Range],
    window: &Range,
    out: &mut [Range],
    count: &mut usize,
) -> u32
    ensures { AnswersClip result out.old out.new count.old count.new ranges.old ranges.new without.old without.new
        window.now }
{
    clip_ranges(ranges, without, window, out, count)
}

/// Returns where memory is in the regions: the byte at `address` is regions[region].bytes[offset], and `length` bytes
/// from there on are in that region.
#[unsafe(no_mangle)]
pub extern "C" fn zacpi_1_locate(
    regions: &[Region<'_>],
    address: u64,
    length: u64,
    out: &mut Place,
) -> u32
    ensures { AnswersPlain result out.old out.new (located regions.now address length) }
{
    answer_plain(locate(regions, address, length), out)
}
