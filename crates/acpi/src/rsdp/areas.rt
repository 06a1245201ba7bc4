//! The search for the RSDP in areas that a caller passes, if firmware maps less than whole areas.
ghost use Rattle.std.specs.Prelude.{◌≡◌, ◌<◌, ◌≤◌, ◌^◌, ◌+◌, ◌*◌, ℕ, Ok, IfErr, IfOk, IfSome, option_map, IsOk};
ghost use Rattle.acpi_base.specs.Words.{IsOfMemory, bytes_of, handler_of, start_of, Allows, Footprint, Gives, lent};
ghost use Rattle.acpi.specs.Words.{accepted_in_areas, accepted_rsdp_at, accepted_rsdp_ranges, areas_ranges, count_in, first_in, is_refused_in, walk_in, IsSearchedIn, found_in_areas, walk_ranges, rsdp_at, IsRefused, placed, walk};
ghost use Rattle.acpi.specs.Areas as areas;

use super::{Rsdp, check_mapped};
use acpi_base::bytes::skip;
use acpi_base::{AcpiError, AcpiResult, AddressRange, Lender, PhysicalMapping, PhysicalRecord};

/// The areas that a BIOS puts the RSDP in, in the order of section 5.2.5.1: the first KiB of the
/// extended BIOS data area (EBDA), and 0xe0000..0x100000.
///
/// The EBDA is given by its physical address, which is 16 times the word at 0x40e, and not by that
/// word. Its KiB is cut at 0xa0000, where video memory begins. The first area has no bytes, at address
/// 0, if the EBDA isn't given or doesn't begin within 0x400..0xa0000.
///
/// `Rsdp::search_for_on_bios` looks at the EBDA last, so if both areas have a valid RSDP a search in these
/// areas may return another one.
pub fn bios_areas(ebda: Option<u64>) -> [AddressRange; 2]
    ensures { result ≡ areas.bios_areas ebda }
{
    let first = match ebda {
        Some(address) if address >= 0x400 && address < 0xa0000 => AddressRange {
            address,
            length: if address + 1024 <= 0xa0000 {
                1024
            } else {
                0xa0000 - address
            },
        },
        _ => AddressRange {
            address: 0,
            length: 0,
        },
    };
    let second = AddressRange {
        address: 0xe0000,
        length: 0x20000,
    };
    [first, second]
}

/// The first candidate of an area, and how many there are, each 16 bytes after the one before. The
/// first is 0 if there is none.
fn candidates(area: &AddressRange) -> (u64, u64)
    ensures first { 0 < result.1 → result.0 ≡ first_in area.now }
    ensures count { result.1 ≡ count_in area.now }
    ensures low { result.0 + 16 * result.1 < 2 ^ 64 }
{
    let skipped = (16 - area.address % 16) % 16;
    let room = area.length.min(u64::MAX - area.address);
    if room < skipped + 20 {
        return (0, 0);
    }
    (area.address + skipped, (room - skipped - 4) / 16)
}

/// Whether bytes contain a candidate's at an offset, and its own checks fail for these.
fn is_refused_in(bytes: &[u8], offset: usize, accept: u32) -> bool
    ensures { result ≡ is_refused_in accept bytes.now offset }
{
    let front = skip(bytes, offset);
    if front.len() < 36 {
        return false;
    }
    let candidate = &front[..36];
    Rsdp::read(candidate)
        .summed_length(candidate, accept)
        .is_err()
}

/// The RSDP at an address, if it is valid, or else how many candidates from there on are invalid,
/// as far as is known from what was mapped there: each 16 bytes after the one before.
fn candidate_at<'h, H: Lender>(
    handler: &'h H,
    address: u64,
    left: u64,
    accept: u32,
) -> Result<PhysicalMapping<'h, H, Rsdp>, u64>
    requires some { 0 < left }
    requires low { 16 * left < 2 ^ 64 }
    requires asked { Allows (H.may handler.now) (accepted_rsdp_ranges accept (H.memory handler.now) address) }
    ensures handler { IfOk result (λ m. handler_of m ≡ handler.now) }
    ensures lent { IfOk result (λ m. IsOfMemory (H.memory handler.now) m) }
    ensures place { IfOk result (λ m. start_of m ≡ address) }
    ensures valid { IfOk result (λ m. accepted_rsdp_at accept (H.memory handler.now) address ≡ Ok (bytes_of m)) }
    ensures some_passed { IfErr result (λ n. 0 < n) }
    ensures most { IfErr result (λ n. n ≤ left) }
    ensures refused { IfErr result (λ n. (i : ℕ) → i < n
        → IsRefused accept (H.memory handler.now) (address + 16 * i)) }
{
    match PhysicalMapping::<'h, H, Rsdp>::map(handler, address, 36) {
        Ok(rsdp) => match check_mapped(handler, &rsdp, accept) {
            Ok(()) => Ok(rsdp),
            Err(_) => {
                // The bytes that were mapped with its own may show that the ones after it are invalid too.
                let bytes = rsdp.lent_bytes();
                let other = (1..left).find(|k| !is_refused_in(bytes, 16 * *k as usize, accept));
                Err(other.unwrap_or(left))
            }
        },
        Err(_) => Err(1),
    }
}

/// The first valid one of a number of candidates from an address on.
fn first_valid<'h, H: Lender>(
    handler: &'h H,
    first: u64,
    count: u64,
    accept: u32,
) -> Option<PhysicalMapping<'h, H, Rsdp>>
    requires low { first + 16 * count < 2 ^ 64 }
    requires asked { Allows (H.may handler.now) (walk_ranges accept (H.memory handler.now) count first) }
    ensures handler { IfSome result (λ m. handler_of m ≡ handler.now) }
    ensures lent { IfSome result (λ m. IsOfMemory (H.memory handler.now) m) }
    ensures found { option_map placed result ≡ walk accept (H.memory handler.now) count first }
{
    let mut passed = 0;
    while passed < count {
        match candidate_at(handler, first + 16 * passed, count - passed, accept) {
            Ok(found) => return Some(found),
            Err(refused) => passed += refused,
        }
    }
    None
}

/// The first valid candidate of an area.
fn first_of_area<'h, H: Lender>(
    handler: &'h H,
    area: &AddressRange,
    accept: u32,
) -> Option<PhysicalMapping<'h, H, Rsdp>>
    requires { Allows (H.may handler.now)
        (walk_ranges accept (H.memory handler.now) (count_in area.now) (first_in area.now)) }
    ensures handler { IfSome result (λ m. handler_of m ≡ handler.now) }
    ensures lent { IfSome result (λ m. IsOfMemory (H.memory handler.now) m) }
    ensures found { option_map placed result ≡ walk_in accept (H.memory handler.now) area.now }
{
    let (first, count) = candidates(area);
    if count == 0 {
        return None;
    }
    first_valid(handler, first, count, accept)
}

/// The first valid candidate of the areas, in their order. Fails with `NoValidRsdp` if there is none.
fn first_of_areas<'h, H: Lender>(
    handler: &'h H,
    areas: &[AddressRange],
    accept: u32,
) -> AcpiResult<PhysicalMapping<'h, H, Rsdp>>
    requires { Allows (H.may handler.now) (areas_ranges accept (H.memory handler.now) areas.now) }
    ensures handler { IfOk result (λ m. handler_of m ≡ handler.now) }
    ensures lent { IfOk result (λ m. IsOfMemory (H.memory handler.now) m) }
    ensures exact { Gives placed result (accepted_in_areas accept (H.memory handler.now) areas.now) }
{
    for area in areas {
        if let Some(found) = first_of_area(handler, area, accept) {
            return Ok(found);
        }
    }
    Err(AcpiError::NoValidRsdp)
}

impl Rsdp {
    /// The RSDP in areas that the caller passes (section 5.2.5.1), such as `bios_areas` or the ones that
    /// a firmware's memory map names: a mapping of the 36 bytes of the first valid candidate.
    ///
    /// The areas are looked at in their order, and the candidates of one from the lowest on: they are
    /// the multiples of 16 in it with 20 bytes before its end, and an end above 2^64 counts as 2^64. A
    /// candidate that fails any check of an RSDP at an address is skipped, also one whose bytes
    /// aren't mapped. A candidate's 36 bytes, and as many as its length, may reach past the area's end;
    /// no other byte there is requested.
    ///
    /// No area is requested as a whole. No clause counts the requests: tests see at most two for a
    /// candidate, and none if the bytes that were mapped for one before it show that it isn't valid.
    ///
    /// Fails with `NoValidRsdp` if no candidate is left, also if there are no areas.
    pub fn search_in<'h, H: Lender>(
        handler: &'h H,
        areas: &[AddressRange],
    ) -> AcpiResult<PhysicalMapping<'h, H, Rsdp>>
        requires { Allows (H.may handler.now) (areas_ranges 0 (H.memory handler.now) areas.now) }
        ensures handler { IfOk result (λ m. handler_of m ≡ handler.now) }
        // However many bytes were mapped, all of them are the memory's.
        ensures lent { IfOk result (λ m. IsOfMemory (H.memory handler.now) m) }
        ensures exact { Gives placed result (found_in_areas (H.memory handler.now) areas.now) }
        ensures valid { IfOk result (λ m. IsOk (rsdp_at (H.memory handler.now) (start_of m))) }
        // In the reader's words: the first valid candidate, or there is none.
        ensures first { IsSearchedIn 0 (H.memory handler.now) areas.now placed result }
        // It depends on the candidates up to the one found.
        ensures footprint { let m = H.memory handler.now in
            Footprint m (areas_ranges 0 m areas.now) (λ n. found_in_areas n areas.now)
            (Gives placed result) }
    {
        Rsdp::search_in_accepting(handler, areas, 0)
    }

    /// The RSDP that the bits of `accept` accept, in areas that the caller passes: as `search_in` finds the first valid
    /// one. `read_accepted` reads it.
    ///
    /// Fails as `search_in` does.
    #[tactic(auto, using(crate::proofs::Agreed::same_in_areas, crate::proofs::Among::found_valid_in, crate::proofs::Among::searched_in))]
    pub fn search_in_accepting<'h, H: Lender>(
        handler: &'h H,
        areas: &[AddressRange],
        accept: u32,
    ) -> AcpiResult<PhysicalMapping<'h, H, Rsdp>>
        requires { Allows (H.may handler.now) (areas_ranges accept (H.memory handler.now) areas.now) }
        ensures handler { IfOk result (λ m. handler_of m ≡ handler.now) }
        // However many bytes were mapped, all of them are the memory's.
        ensures lent { IfOk result (λ m. IsOfMemory (H.memory handler.now) m) }
        ensures exact { Gives placed result (accepted_in_areas accept (H.memory handler.now) areas.now) }
        ensures valid { IfOk result (λ m. IsOk (accepted_rsdp_at accept (H.memory handler.now) (start_of m))) }
        // In the reader's words: the first candidate that is accepted, or there is none.
        ensures first { IsSearchedIn accept (H.memory handler.now) areas.now placed result }
        // It depends on the candidates up to the one found.
        ensures footprint { let m = H.memory handler.now in
            Footprint m (areas_ranges accept m areas.now) (λ n. accepted_in_areas accept n areas.now)
            (Gives placed result) }
    {
        first_of_areas(handler, areas, accept)
    }
}
