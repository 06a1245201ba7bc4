//! What isn't mapped of the RSDPs that a search comes to (section 5.2.5.1): each is tried as the search tries it.
ghost use Rattle.std.specs.Prelude.{◌≡◌, ◌+◌, ◌*◌, ◌/◌, ◌<◌, ◌≤◌, ◌^◌, length, Err, IfErr};
ghost use Rattle.acpi_c_lib.specs.Words.{is_ok, MapFailed, accepted_rsdp_at, length_ranges, word_in, Writes, put_from, areas_of, candidate_missing_range, candidate_missing_ranges, Fits, has_valid, last_range, no_areas, pieces, stretch, walk_missing_ranges};

use crate::missing::{is_lent, put_pair, range, second_range};
use crate::opening::{ebda, ebda_segment};
use crate::records::{Range, Source};
use acpi::rsdp::{Rsdp, bios_areas, map_accepted_rsdp};
use acpi::{AcpiError, AcpiHandler, AddressRange, PhysicalMapping};

/// Candidates of a search: the address of the first, and how many there are, 16 bytes apart.
#[derive(Clone, Copy)]
struct Candidates {
    first: u64,
    count: u64,
}

/// The candidates of a search's two areas: it comes to the second's if none of the first's is valid.
#[derive(Clone, Copy)]
struct Areas {
    first: Candidates,
    second: Candidates,
}

/// Writes what isn't mapped of the candidates of a source's search, and returns the number of these ranges.
pub(crate) fn candidate_missing_ranges<H: AcpiHandler>(
    handler: &H,
    source: &Source<'_>,
    out: &mut [Range],
) -> usize
    ensures written { Writes result out.old out.new (candidate_missing_ranges (H.memory handler.now) source.now) }
    ensures few { result < 2 ^ 30 }
{
    let areas = areas_of(handler, source);
    let (count, is_found) = walk(handler, areas.first, source.accept, out, 0);
    if is_found {
        return count;
    }
    walk(handler, areas.second, source.accept, out, count).0
}

/// The candidates of a source's search. Another start has none.
#[tactic(auto, using(crate::proofs::Unmapped::ebda_fits, crate::proofs::Unmapped::bios_fits))]
fn areas_of<H: AcpiHandler>(handler: &H, source: &Source<'_>) -> Areas
    ensures exact { result ≡ areas_of (H.memory handler.now) source.now }
    ensures first { Fits result.first }
    ensures second { Fits result.second }
{
    match source.start {
        3 => pieces(handler),
        4 => {
            let [first, second] = bios_areas(ebda(handler));
            Areas {
                first: stretch(first),
                second: stretch(second),
            }
        }
        _ => no_areas(),
    }
}

fn no_areas() -> Areas
    ensures { result ≡ no_areas }
{
    let none = Candidates { first: 0, count: 0 };
    Areas {
        first: none,
        second: none,
    }
}

/// The candidates of the search that maps the word at 0x40e, and then each area in one piece with 16 bytes after it.
#[tactic(auto, using(crate::proofs::Unmapped::second_fits))]
fn pieces<H: AcpiHandler>(handler: &H) -> Areas
    ensures exact { result ≡ pieces (H.memory handler.now) (word_in (H.memory handler.now)) }
    ensures first { Fits result.first }
    ensures second { Fits result.second }
{
    let Ok(word) = ebda_segment(handler) else {
        return no_areas();
    };
    if !is_lent(handler, 0xe0000, 0x20010) {
        return no_areas();
    }
    let second = second_range(word);
    let is_second = is_lent(handler, second.address, second.length as u32);
    Areas {
        first: Candidates {
            first: 0xe0000,
            count: 0x1fff,
        },
        second: Candidates {
            first: second.address,
            count: if is_second {
                (second.length - 20) / 16
            } else {
                0
            },
        },
    }
}

/// The candidates of an area as far as it is mapped.
#[tactic(auto, using(crate::proofs::Unmapped::first_is, crate::proofs::Unmapped::count_is))]
fn stretch(area: AddressRange) -> Candidates
    requires begins { area.address / 16 * 16 ≡ area.address }
    requires low { area.address + area.length ≤ 2 ^ 20 }
    ensures exact { result ≡ stretch area }
    ensures fits { Fits result }
{
    Candidates {
        first: area.address,
        count: u64::saturating_sub(area.length, 4) / 16,
    }
}

/// Writes what isn't mapped of candidates from an index on, up to the first that the bits of `accept` accept. Returns
/// the next index, and whether there is one.
fn walk<H: AcpiHandler>(
    handler: &H,
    candidates: Candidates,
    accept: u32,
    out: &mut [Range],
    from: usize,
) -> (usize, bool)
    requires fits { Fits candidates }
    requires few { from < 2 ^ 20 }
    ensures written { out.new ≡ put_from out.old from
        (walk_missing_ranges accept (H.memory handler.now) candidates.count candidates.first) }
    ensures next { result.0 ≡ from + length (walk_missing_ranges
        accept (H.memory handler.now) candidates.count candidates.first) }
    ensures most { result.0 ≤ from + candidates.count }
    ensures found { result.1 ≡ has_valid accept (H.memory handler.now) candidates.count candidates.first }
{
    let mut next = from;
    let mut address = candidates.first;
    let mut left = candidates.count;
    while left > 0 {
        match try_candidate(handler, address, accept) {
            Ok(()) => return (next, true),
            Err(missing_range) => next = put_pair((missing_range, None), out, next),
        }
        address += 16;
        left -= 1;
    }
    (next, false)
}

/// Tries a candidate: whether it is accepted, or else the range that its Length covers, if its first 36 bytes are
/// mapped and that range isn't.
#[tactic(auto, unfolding(crate::specs::Missing::candidate_missing_range))]
fn try_candidate<H: AcpiHandler>(
    handler: &H,
    address: u64,
    accept: u32,
) -> Result<(), Option<Range>>
    ensures valid { is_ok result ≡ is_ok (accepted_rsdp_at accept (H.memory handler.now) address) }
    ensures missing_range { IfErr result (λ o. o ≡ candidate_missing_range accept (H.memory handler.now) address) }
{
    match map_accepted_rsdp(handler, address, accept) {
        Ok(_rsdp) => Ok(()),
        Err(AcpiError::MapFailed) => Err(length_missing_range(handler, address, accept)),
        Err(_) => Err(None),
    }
}

/// Of an RSDP that isn't mapped, the range that its Length covers, if its first 36 bytes are mapped.
#[tactic(auto, using(crate::proofs::Unmapped::length_said), unfolding(crate::specs::Missing::candidate_missing_range))]
fn length_missing_range<H: AcpiHandler>(handler: &H, address: u64, accept: u32) -> Option<Range>
    requires { accepted_rsdp_at accept (H.memory handler.now) address ≡ Err MapFailed }
    ensures { result ≡ candidate_missing_range accept (H.memory handler.now) address }
{
    let Ok(rsdp) = PhysicalMapping::<'_, H, Rsdp>::map(handler, address, 36) else {
        return None;
    };
    range_of_length(address, rsdp.length())
}

/// The range of `length` bytes from an address, if there is a length.
fn range_of_length(address: u64, length: Option<u32>) -> Option<Range>
    ensures { result ≡ last_range (length_ranges address length) }
{
    match length {
        Some(length) => Some(range(address, length)),
        _ => None,
    }
}
