//! A row of a table in the text of acpidump or acpiview: its offset, a colon, and up to 16 pairs of hexadecimal digits.
ghost use Rattle.std.specs.Prelude.{◌≡◌, ◌==◌, IfOk, Some, None, if◌then◌else◌, option_map};
ghost use Rattle.acpi_base.specs.FromStd.{after_first, before_first};
ghost use Rattle.acpi_dump_input.specs.DumpText.{after_dash, begins_with_gap, byte_of as pair_byte, first_pair as pair_of, is_gap, offset_of, row_of, with_pairs};

use acpi_cli::number_of;
use std::alloc::AllocError;

/// A row.
#[derive(Clone, Copy)]
pub(crate) struct Row<'t> {
    /// The number before the colon: how many bytes of the table stand before the row.
    pub(crate) offset: u64,
    /// What comes after the colon and a space: the pairs, and then the bytes as characters.
    pub(crate) pairs: &'t [u8],
}

/// A text up to its first space, and what comes after that.
fn first_word(text: &str) -> (&str, &str)
    ensures word { result.0.now ≡ before_first (λ c. c == 32) text.now }
    ensures rest { result.1.now ≡ after_first (λ c. c == 32) text.now }
{
    match text.split_once(' ') {
        Some(parts) => parts,
        None => (text, ""),
    }
}

/// The number of one to eight hexadecimal digits, after which acpiview has a space. Its names of fields have more of
/// them, also those that are spelled by such digits alone.
#[tactic(auto, unfolding(crate::specs::DumpText::offset_of))]
fn offset_in(text: &str) -> Option<u64>
    ensures { result ≡ offset_of text.now }
{
    let (digits, rest) = first_word(text);
    if !rest.is_empty() {
        return None;
    }
    number_of(digits, 16, 8)
}

/// The row that a line is, or `None` if it doesn't begin with one to eight hexadecimal digits, a space or none, a colon
/// and a space, after any spaces.
#[tactic(auto, unfolding(crate::specs::DumpText::row_of))]
pub(crate) fn row_in(line: &str) -> Option<Row<'_>>
    ensures { option_map (λ r. (r.offset, r.pairs.now)) result ≡ row_of line.now }
{
    let (offset, pairs) = line.split_once(':')?;
    let offset = offset_in(offset.trim_start())?;
    let pairs = pairs.strip_prefix(" ")?;
    Some(Row {
        offset,
        pairs: pairs.as_bytes(),
    })
}

/// The byte that two digits spell.
#[tactic(auto, unfolding(crate::specs::DumpText::byte_of))]
fn byte_of(high: u8, low: u8) -> Option<u8>
    ensures { result ≡ pair_byte high low }
{
    let high = (high as char).to_digit(16)?;
    let low = (low as char).to_digit(16)?;
    Some((high * 16 + low) as u8)
}

/// Whether a byte ends a pair, or is in place of one: a space or the carriage return of a line's end.
fn is_blank(byte: u8) -> bool
    ensures { result ≡ is_gap byte }
{
    byte == b' ' || byte == b'\r'
}

/// Whether a text begins with a gap, or is empty.
fn ends(text: &[u8]) -> bool
    ensures { result ≡ begins_with_gap text.now }
{
    match text {
        [] => true,
        [first, ..] => is_blank(*first),
    }
}

/// The pair that a text begins with, and what comes after it and its space, or `None` if it begins with none.
fn first_pair(text: &[u8]) -> Option<(u8, &[u8])>
    ensures { option_map (λ p. (p.0, p.1.now)) result ≡ pair_of text.now }
{
    match text {
        [high, low] => Some((byte_of(*high, *low)?, &[])),
        [high, low, gap, rest @ ..] if is_blank(*gap) => Some((byte_of(*high, *low)?, rest)),
        _ => None,
    }
}

/// The pairs of a row of which so many are left, less the dash that acpiview has before the last eight.
fn without_dash(left: usize, text: &[u8]) -> &[u8]
    ensures { result.now ≡ after_dash left text.now }
{
    match text {
        [dash, gap, rest @ ..] if left == 8 && *dash == b'-' && *gap == b' ' => rest,
        _ => text,
    }
}

/// Adds the bytes that up to 16 pairs spell, up to a gap in place of one or the end of the text, and returns whether
/// all of that are pairs.
#[tactic(auto, using(crate::proofs::Reading::pairs_done, crate::proofs::Reading::pairs_gap, crate::proofs::Reading::pairs_wrong, crate::proofs::Reading::pairs_more))]
pub(crate) fn push_pairs(bytes: &mut Vec<u8>, text: &[u8]) -> Result<bool, AllocError>
    ensures { IfOk result (λ all. with_pairs 16 bytes.old.items text.now
        ≡ (if all then Some bytes.new.items else None)) }
{
    let mut rest = text;
    let mut left = 16usize;
    while left > 0 && !ends(without_dash(left, rest)) {
        let Some((byte, after)) = first_pair(without_dash(left, rest)) else {
            return Ok(false);
        };
        bytes.push(byte)?;
        rest = after;
        left -= 1;
    }
    Ok(true)
}
