//! One record of a file.
ghost use Rattle.std.specs.Prelude.{◌≢◌, ◌^◌, ◌<◌, length, IfErr, IfOk};
ghost use Rattle.acpi_image_reader.specs.declared.error.ImageError.TheVariants.{OutOfMemory};
ghost use Rattle.acpi_base.specs.Words.{end_of, Gives};
ghost use Rattle.acpi_image_reader.specs.Words.{record_at, region_of};

use crate::error::ImageError;
use crate::range::shares_byte;
use acpi_base::AddressRange;
use acpi_base::bytes::field;

/// A region of memory that a file encodes by one of its records.
#[derive(Clone, Copy)]
pub struct Record<'a> {
    /// The physical address of the region's first byte.
    pub start: u64,
    /// The bytes of the region, which are in the file.
    pub bytes: &'a [u8],
}

impl<'a> Record<'a> {
    ghost use Rattle.std.specs.Prelude.{◌≡◌, ◌-◌, ◌↔◌, IfSome, IfNone, drop, true, false};
    ghost use Rattle.acpi_base.specs.Words.{AreApart, lies_in};
    ghost use Rattle.acpi_image_reader.specs.Words.{share};

    /// The bytes from an address on, or `None` if it isn't in this record.
    #[tactic(auto, using(std::proofs::lemmas::Bool::Decides::nat_tests))]
    pub(crate) fn rest(&self, address: u64) -> Option<&'a [u8]>
        ensures inside { IfSome result (λ s. lies_in (region_of self.now) address ≡ true) }
        ensures bytes { IfSome result
            (λ s. s.now ≡ drop (address - self.now.start) self.now.bytes.now) }
        ensures outside { IfNone result (lies_in (region_of self.now) address ≡ false) }
    {
        if address < self.start {
            return None;
        }
        let skipped = address - self.start;
        if skipped < self.bytes.len() as u64 {
            Some(&self.bytes[skipped as usize..])
        } else {
            None
        }
    }

    /// The addresses of its bytes.
    fn range(&self) -> AddressRange
        ensures address { result.address ≡ self.now.start }
        ensures length { result.length ≡ length self.now.bytes.now }
    {
        AddressRange::new(self.start, self.bytes.len() as u64)
    }

    /// Whether some byte is in this record and in another. One without bytes shares none.
    #[tactic(auto, using(crate::proofs::Sharing::share_law), unfolding(crate::specs::Image::share))]
    pub(crate) fn shares_byte(&self, other: &Record<'_>) -> bool
        ensures exact { result ≡ share (region_of self.now) (region_of other.now) }
        // That is, no address is in both exactly if the result is no.
        ensures law { (result ≡ false) ↔ AreApart (region_of self.now) (region_of other.now) }
    {
        shares_byte(self.range(), other.range())
    }
}

/// The record that the bytes begin with, and the bytes after it.
///
/// Fails, in this order, with `Truncated` and `EndTooLarge`.
#[tactic(auto, unfolding(crate::specs::Image::record_at))]
pub(crate) fn first_record(bytes: &[u8]) -> Result<(Record<'_>, &[u8]), ImageError>
    ensures shorter { IfOk result (λ x. length x.1.now < length bytes.now) }
    ensures named { IfErr result (λ e. e ≢ OutOfMemory) }
    ensures fits { IfOk result (λ x. end_of (region_of x.0) < 2 ^ 64) }
    ensures exact { Gives (λ x. (region_of x.0, x.1.now)) result (record_at bytes.now) }
{
    if bytes.len() < 16 {
        return Err(ImageError::Truncated);
    }
    let start = field(bytes, 0, 8);
    let length = field(bytes, 8, 8);
    let behind = &bytes[16..];
    if length > behind.len() as u64 {
        return Err(ImageError::Truncated);
    }
    if !AddressRange::new(start, length).fits() {
        return Err(ImageError::EndTooLarge);
    }
    let length = length as usize;
    let record = Record {
        start,
        bytes: &behind[..length],
    };
    Ok((record, &behind[length..]))
}
