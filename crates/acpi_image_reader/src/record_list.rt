//! The records of a file, in its order and by their starts.
ghost use Rattle.std.proofs.Props.{props};
ghost use Rattle.std.specs.Prelude.{◌≡◌, ◌<◌, [], ◌∷◌, ◌++◌, false, IfErr, OnOk};
ghost use Rattle.acpi_image_reader.specs.Image.{shares_any};
ghost use Rattle.acpi_image_reader.specs.Regions.{region_of, regions_of};
ghost use Rattle.acpi_image_reader.specs.declared.error.ImageError.TheVariants.{OutOfMemory};
ghost use Rattle.acpi_image_reader.specs.Starts.{AreAllApart, AreAllApart-prop, ListsStarts};

use crate::error::ImageError;
use crate::record::Record;
use crate::start_index::{add_start, last_up_to};
use std::alloc::Allocator;
use std::collections::BTreeMap;

/// Keeps the start of one more record, which shares no byte with the records of the list, if it has bytes.
///
/// Fails with `OutOfMemory` if memory for it runs out.
fn keep_start<'a, A: Allocator + Clone>(
    starts: &mut BTreeMap<u64, &'a [u8], A>,
    list: &[Record<'a>],
    added: Record<'a>,
) -> Result<(), ImageError>
    requires { shares_any (regions_of list.now) (region_of added) ≡ false }
    ensures kept { OnOk result (ListsStarts (λ b. b.now) starts.old (regions_of list.now)
        → ListsStarts (λ b. b.now) starts.new (regions_of (list.now ++ (added.entry ∷ [])))) }
    ensures refused { IfErr result (λ e. e ≡ OutOfMemory) }
{
    if added.bytes.is_empty() {
        return Ok(());
    }
    let Ok(()) = add_start(starts, added.start, added.bytes) else {
        return Err(ImageError::OutOfMemory);
    };
    Ok(())
}

/// The records of a file, of which no two share a byte.
#[derive(Drop)]
pub struct Records<'a, A: Allocator> {
    /// The records, in the order of the file.
    pub(crate) list: Vec<Record<'a>, A>,
    /// The bytes of those that have some, by their starts: one more record, and an address, are
    /// compared with one of these, and not with each.
    starts: BTreeMap<u64, &'a [u8], A>,
    ghost apart: { AreAllApart (regions_of list.items) } by { AreAllApart-prop _ },
    ghost listed: { ListsStarts (λ b. b.now) starts (regions_of list.items) } by { Prim.hlevel props },
}

impl<'a, A: Allocator> Records<'a, A> {
    ghost use Rattle.std.specs.Prelude.{◌≡◌, ◌^◌, ◌<◌, ◌≤◌, ℕ, [], ◌∷◌, ◌++◌, false, None, Some, IfNone, IfSome, IsSome, IfOk, IfErr};
    ghost use Rattle.acpi_base.specs.Words.{end_of, rest_from};
    ghost use Rattle.acpi_image_reader.specs.Starts.{bytes_at};

    /// No record.
    #[tactic(auto, using(crate::proofs::Listing::apart_none, crate::proofs::Listing::starts_none))]
    pub(crate) fn none(alloc: A) -> Records<'a, A>
    where
        A: Copy,
        ensures { result.list.items ≡ [] }
    {
        Records {
            list: Vec::new(alloc),
            starts: BTreeMap::new(alloc),
        }
    }

    /// These records, with one more after them.
    ///
    /// Fails with `OutOfMemory` if memory for it runs out.
    #[tactic(auto, using(crate::proofs::Listing::record_apart))]
    pub(crate) fn with(self, added: Record<'a>) -> Result<Records<'a, A>, ImageError>
    where
        A: Clone,
        requires { shares_any (regions_of self.list.items) (region_of added) ≡ false }
        ensures kept { IfOk result
            (λ r. r.list.items ≡ self.entry.list.items ++ (added.entry ∷ [])) }
        ensures refused { IfErr result (λ e. e ≡ OutOfMemory) }
    {
        let Records {
            mut list,
            mut starts,
        } = self;
        keep_start(&mut starts, &list, added)?;
        let Ok(()) = list.push(added) else {
            return Err(ImageError::OutOfMemory);
        };
        Ok(Records { list, starts })
    }

    /// The one of those with bytes that starts last up to an address.
    fn last_up_to(&self, address: u64) -> Option<Record<'a>>
        ensures kept { IfSome result (λ r. bytes_at (regions_of self.now.list.items) r.start
            ≡ Some r.bytes.now) }
        ensures low { IfSome result (λ r. r.start ≤ address) }
        ensures last { IfSome result (λ r. (a : ℕ) → a ≤ address
            → IsSome (bytes_at (regions_of self.now.list.items) a) → a ≤ r.start) }
        ensures none { IfNone result ((a : ℕ) → a ≤ address
            → bytes_at (regions_of self.now.list.items) a ≡ None) }
    {
        match last_up_to(&self.starts, address) {
            Some((start, bytes)) => Some(Record { start, bytes }),
            None => None,
        }
    }

    /// Whether a record shares a byte with one of these.
    #[tactic(auto, using(crate::proofs::Listing::shares_by, crate::proofs::Listing::shares_empty, crate::proofs::Listing::shares_nothing))]
    pub(crate) fn shares_with_any(&self, added: &Record<'_>) -> bool
        requires { end_of (region_of added.now) < 2 ^ 64 }
        ensures { result ≡ shares_any (regions_of self.now.list.items) (region_of added.now) }
    {
        if added.bytes.is_empty() {
            return false;
        }
        let last = added.start + (added.bytes.len() as u64 - 1);
        match self.last_up_to(last) {
            Some(record) => record.shares_byte(added),
            None => false,
        }
    }

    /// The bytes from a physical address to the end of the record that it is in, or none if it is in no
    /// record.
    #[tactic(auto, using(crate::proofs::Listing::rest_found, crate::proofs::Listing::rest_nothing, crate::proofs::Listing::rest_past))]
    pub fn rest_at(&self, address: u64) -> &'a [u8]
        ensures { result.now ≡ rest_from (regions_of self.now.list.items) address }
    {
        match self.last_up_to(address) {
            Some(record) => match record.rest(address) {
                Some(rest) => rest,
                None => &[],
            },
            None => &[],
        }
    }
}
