//! The ranges of memory that a caller has to map before the calls can read all tables.
ghost use Rattle.std.specs.Prelude.{◌≡◌, [], ◌+◌, ◌++◌, ◌^◌, ◌<◌, ◌≤◌, filter_map, length, Err, Some};
ghost use Rattle.acpi_base.specs.FromStd.{IsFinite, cons_option, is_ok};
ghost use Rattle.acpi_base.specs.Words.{accepted, lent, plain_kind, table_at};
ghost use Rattle.acpi_fixed.specs.Words.{dsdt_address_of, viewed};
ghost use Rattle.acpi.specs.Types.{MapFailed};
ghost use Rattle.acpi.specs.Words.{accepted_found_rsdp, accepted_rsdp_at, accepted_rsdp_ranges, accepted_search_ranges, facs_place, facs_place_ranges, pointers_left, room_of, second_area};
ghost use Rattle.acpi_c_lib.specs.Words.{Fills, items_said, put_from, result_map, dsdt_missing_range, opened_in, missing_range, last_range, member_missing_range, unmapped_range, missing_below, missing_in, opening_missing_range, range_of, rsdp_missing_range, rsdp_in, table_missing_range, Acpi, lists_some};

use crate::candidates::candidate_missing_ranges;
use crate::lists::{Listing, fill_from, put};
use crate::opening::{check_policy, find_fadt, open, root_pointer};
use crate::records::{Range, Source};
use crate::refusal::Refusal;
use crate::regions::Mapped;
use acpi::fadt::FadtView;
use acpi::rsdp::{Rsdp, second_area};
use acpi::sdt::{SdtHeader, Signature};
use acpi::{AcpiError, AcpiHandler, PhysicalMapping, PhysicalRecord, Pointers, facs_length};
use acpi_base::table::{own_valid_by, valid_by};

/// Lists the ranges of memory that a caller has to map before all tables can be read.
pub fn missing(source: &Source<'_>, out: &mut [Range]) -> Result<usize, Refusal>
    ensures { Fills result out.old out.new (missing_below source.now) }
{
    let memory = Mapped::new(source.regions)?;
    check_policy(source)?;
    let from = candidate_missing_ranges(&memory, source, out);
    others(&memory, source, out, from)
}

/// Writes the ranges that aren't of a search's candidates, from an index on, and returns the next index.
#[tactic(auto, using(acpi::proofs::First::filter_map_few))]
fn others<H: AcpiHandler>(
    handler: &H,
    source: &Source<'_>,
    out: &mut [Range],
    from: usize,
) -> Result<usize, Refusal>
    requires { from < 2 ^ 30 }
    ensures count { let m = H.memory handler.now in
        result ≡ result_map (λ xs. from + length xs) (missing_in m source.now (opened_in m source.now)) }
    ensures items { let m = H.memory handler.now in
        out.new ≡ put_from out.old from (items_said (missing_in m source.now (opened_in m source.now))) }
{
    match open(handler, source) {
        Ok(tables) => {
            let dsdt_and_facs = match find_fadt(&tables) {
                Ok(fadt) => (
                    dsdt_missing_range(handler, source.accept, &fadt),
                    facs_missing_range(handler, &fadt),
                ),
                Err(_) => (None, None),
            };
            let accept = source.accept;
            Ok(fill_with(
                tables.addresses(),
                &Unmapped { handler, accept },
                dsdt_and_facs,
                out,
                from,
            ))
        }
        Err(Refusal::Acpi(_)) => {
            let refused = opening_missing_range(handler, source);
            Ok(put_pair((refused, None), out, from))
        }
        Err(refusal) => Err(refusal),
    }
}

/// Writes the ranges of a walk's items, and then a pair of ranges, from an index on, and returns the next index.
#[tactic(auto, using(crate::proofs::Written::put_parts))]
pub(crate) fn fill_with<C, W: Listing<C, Range>>(
    walk: W,
    known: &C,
    others: (Option<Range>, Option<Range>),
    out: &mut [Range],
    from: usize,
) -> usize
    requires goes_on { W.can_next walk × IsFinite (W.remaining walk) }
    requires few { length (W.left known.now walk) < 2 ^ 32 }
    requires low { from < 2 ^ 30 }
    ensures count { result ≡ from + length (W.left known.now walk ++ cons_option others.0 (cons_option others.1 [])) }
    ensures items { out.new
        ≡ put_from out.old from (W.left known.now walk ++ cons_option others.0 (cons_option others.1 [])) }
{
    let count = fill_from(walk, known, out, from);
    put_pair(others, out, count)
}

/// The memory in which tables are looked up, and what is accepted of them, to list what isn't mapped.
#[derive(Drop)]
struct Unmapped<'h, H: AcpiHandler> {
    handler: &'h H,
    accept: u32,
}

impl<H: AcpiHandler> Listing<Unmapped<'_, H>, Range> for Pointers<'_> {
    ghost use Rattle.std.specs.Prelude.{filter_map};

    ghost record_of = { λ u p. member_missing_range u.accept (H.memory u.handler.now) p };

    ghost left = { λ u s. filter_map (member_missing_range u.accept (H.memory u.handler.now)) (pointers_left s) };

    ghost gives_first = { λ u. lists_some (member_missing_range u.accept (H.memory u.handler.now))
        (λ s. pointers_left s) };

    /// The unmapped range because of which a member of the root table fails.
    fn record(known: &Unmapped<'_, H>, address: u64) -> Option<Range>
        ensures { let u = known.now in result
            ≡ member_missing_range u.accept (H.memory u.handler.now) address }
    {
        match own_valid_by(known.handler, address, known.accept) {
            Err(AcpiError::MapFailed) => Some(table_missing_range(known.handler, address)),
            Err(_) => None,
            Ok(table) => {
                table.mapping::<SdtHeader>();
                None
            }
        }
    }
}

/// Writes the ranges of a pair that are there, from an index on, and returns the next index.
pub(crate) fn put_pair(
    pair: (Option<Range>, Option<Range>),
    out: &mut [Range],
    from: usize,
) -> usize
    requires { from < 2 ^ 33 }
    ensures count { result ≡ from + length (cons_option pair.0 (cons_option pair.1 [])) }
    ensures items { out.new ≡ put_from out.old from (cons_option pair.0 (cons_option pair.1 [])) }
{
    let mut count = from;
    if let Some(range) = pair.0 {
        put(out, count, range);
        count += 1;
    }
    if let Some(range) = pair.1 {
        put(out, count, range);
        count += 1;
    }
    count
}

/// The range of `length` bytes from an address.
pub(crate) fn range(address: u64, length: u32) -> Range
    ensures { result ≡ range_of (address, length) }
{
    Range {
        address,
        length: length as u64,
    }
}

/// Whether `length` bytes from an address are mapped, of which there are at least two.
pub(crate) fn is_lent<H: AcpiHandler>(handler: &H, address: u64, length: u32) -> bool
    requires { 2 ≤ length }
    ensures { result ≡ is_ok (lent (H.memory handler.now) address length) }
{
    PhysicalMapping::<'_, H, u16>::map(handler, address, length as usize).is_ok()
}

/// The unmapped range of a table of any signature: its header, or the bytes of the header's Length (section 5.2.6).
fn table_missing_range<H: AcpiHandler>(handler: &H, address: u64) -> Range
    ensures { result ≡ unmapped_range address (lent (H.memory handler.now) address 36) }
{
    match PhysicalMapping::<'_, H, SdtHeader>::map(handler, address, 36) {
        Ok(head) => range(address, head.length),
        Err(_) => range(address, 36),
    }
}

/// The unmapped range because of which the table at an address fails under a signature.
fn missing_range_at<H: AcpiHandler>(
    handler: &H,
    accept: u32,
    address: u64,
    signature: Signature,
) -> Option<Range>
    ensures { let m = H.memory handler.now in
        result ≡ table_missing_range m address (table_at m (accepted accept (plain_kind signature)) address) }
{
    match valid_by(handler, address, signature, SdtHeader::MIN_LENGTH, accept) {
        Err(AcpiError::MapFailed) => Some(table_missing_range(handler, address)),
        Err(_) => None,
        Ok(table) => {
            table.mapping::<SdtHeader>();
            None
        }
    }
}

/// The unmapped range because of which the DSDT that a FADT points to fails (section 5.2.11.1).
fn dsdt_missing_range<H: AcpiHandler>(
    handler: &H,
    accept: u32,
    fadt: &FadtView<'_, H>,
) -> Option<Range>
    ensures { result ≡ dsdt_missing_range accept (H.memory handler.now) (dsdt_address_of (viewed fadt.now)) }
{
    missing_range_at(handler, accept, fadt.dsdt_address().ok()?, Signature::DSDT)
}

/// The unmapped range because of which the FACS that a FADT points to fails: its first 36 bytes, or the bytes of its
/// Length (section 5.2.10).
#[tactic(auto, using(crate::proofs::Unmapped::no_missing_range), unfolding(acpi::specs::Places::facs_at, acpi::specs::Places::facs_length))]
fn facs_missing_range<H: AcpiHandler>(handler: &H, fadt: &FadtView<'_, H>) -> Option<Range>
    ensures { let m = H.memory handler.now in
        result ≡ missing_range (facs_place m (viewed fadt.now)) (facs_place_ranges m (viewed fadt.now)) }
{
    let address = fadt.facs_address().ok()?;
    let Ok(head) = PhysicalMapping::<'_, H, SdtHeader>::map(handler, address, 36) else {
        return Some(range(address, 36));
    };
    let length = facs_length(head.signature, head.length).ok()?;
    if is_lent(handler, address, length) {
        return None;
    }
    Some(range(address, length))
}

/// The unmapped range because of which opening fails: the root table, or what is to point to it.
fn opening_missing_range<H: AcpiHandler>(handler: &H, source: &Source<'_>) -> Option<Range>
    ensures { result ≡ opening_missing_range (H.memory handler.now) source.now }
{
    match root_pointer(handler, source) {
        Ok((root, _)) => {
            missing_range_at(handler, source.accept, root.address, root.kind.signature())
        }
        Err(Refusal::Acpi(AcpiError::MapFailed)) => rsdp_missing_range(handler, source),
        Err(_) => None,
    }
}

/// The unmapped range because of which the RSDP fails, or the search for it that needs its areas mapped whole
/// (sections 5.2.5.1 and 5.2.5.3).
fn rsdp_missing_range<H: AcpiHandler>(handler: &H, source: &Source<'_>) -> Option<Range>
    requires { rsdp_in (H.memory handler.now) source.now ≡ Err (Acpi MapFailed) }
    ensures { result ≡ rsdp_missing_range (H.memory handler.now) source.now MapFailed }
{
    match source.start {
        0 => Some(own_missing_range(handler, source.address, source.accept)),
        3 => Some(search_missing_range(handler, source.accept)),
        _ => None,
    }
}

/// The unmapped range because of which the RSDP at an address fails: its first 36 bytes, or the bytes of its Length
/// (section 5.2.5.3).
#[tactic(auto, using(crate::proofs::Unmapped::rsdp_not, crate::proofs::Unmapped::rsdp_length, crate::proofs::Unmapped::sum_not), unfolding(acpi::specs::Rsdp::accepted_rsdp_at))]
fn own_missing_range<H: AcpiHandler>(handler: &H, address: u64, accept: u32) -> Range
    requires { accepted_rsdp_at accept (H.memory handler.now) address ≡ Err MapFailed }
    ensures { last_range (accepted_rsdp_ranges accept (H.memory handler.now) address) ≡ Some result }
{
    let length = match PhysicalMapping::<'_, H, Rsdp>::map(handler, address, 36) {
        Ok(rsdp) => rsdp.length(),
        Err(_) => None,
    };
    range(address, length.unwrap_or(36))
}

/// The unmapped range because of which the search fails: the word at 0x40e, which is the segment of the extended BIOS
/// data area (EBDA), or the first area, 0xe0000..0x100000, or the second one, each with 16 bytes after it (section
/// 5.2.5.1).
#[tactic(auto, using(crate::proofs::Unmapped::search_refused))]
fn search_missing_range<H: AcpiHandler>(handler: &H, accept: u32) -> Range
    requires { accepted_found_rsdp accept (H.memory handler.now) ≡ Err MapFailed }
    ensures { last_range (accepted_search_ranges accept (H.memory handler.now)) ≡ Some result }
{
    let Ok(word) = PhysicalMapping::<'_, H, u16>::map(handler, 0x40e, 2) else {
        return range(0x40e, 2);
    };
    if !is_lent(handler, 0xe0000, 0x20010) {
        return range(0xe0000, 0x20010);
    }
    second_range(*word.get())
}

/// The area that a search looks at second, with the 16 bytes after it (section 5.2.5.1).
pub(crate) fn second_range(word: u16) -> Range
    ensures { let area = second_area word in result ≡ range_of (area.start, room_of area) }
{
    let area = second_area(word);
    range(area.start, (area.end - area.start + 16) as u32)
}
