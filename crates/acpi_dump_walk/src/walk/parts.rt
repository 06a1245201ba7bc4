//! The parts of a structure that are no structures, and where parts lie.

use super::{Field, Show};
use crate::fault::Fault;
use crate::language::{Blocks, Label, cut_at, number_of, size, sum_of};

/// A structure: where it begins in the table, its bytes, and the blocks that its layout is of.
#[derive(Clone, Copy)]
pub(super) struct Piece<'a> {
    pub(super) base: u64,
    pub(super) bytes: &'a [u8],
    pub(super) blocks: &'a Blocks,
}

/// Where a part of a structure begins and ends, and how many elements it has if they are counted.
#[derive(Clone, Copy)]
pub(super) struct Extent {
    pub(super) start: u64,
    pub(super) end: u64,
    pub(super) count: Option<u64>,
}

impl Piece<'_> {
    /// The structure from an offset of it on.
    pub(super) fn from(self, start: usize) -> Self {
        Piece {
            base: self.at(start),
            bytes: self.bytes.get(start..).unwrap_or(&[]),
            ..self
        }
    }

    /// The offset in the table of an offset in the structure.
    pub(super) fn at(self, offset: usize) -> u64 {
        self.base.saturating_add(offset as u64)
    }
}

impl Extent {
    /// Whether a list has an element of this number.
    pub(super) fn is_more(self, number: u64) -> bool {
        self.count.is_none_or(|count| number < count)
    }

    /// Whether nothing is to be there.
    fn is_empty(self) -> bool {
        self.count
            .map_or(self.end <= self.start, |count| count == 0)
    }
}

/// The offset after the first zero from an offset on, or after all bytes if there is none.
pub(super) fn after_zero(bytes: &[u8], start: usize) -> usize {
    for place in start..bytes.len() {
        if bytes[place] == 0 {
            return place + 1;
        }
    }
    start.max(bytes.len())
}

/// Where elements end that begin at an offset of a structure, and how many they are, by the word in their brackets: a
/// count, `*` for as many as fit, or `~` and the length of all.
pub(super) fn list_extent(bytes: &[u8], start: u64, word: &'static str) -> Result<Extent, Fault> {
    let word = word.trim_end_matches(['}', ']']);
    let (mut end, mut count) = (bytes.len() as u64, None);
    match word.strip_prefix('~') {
        Some(length) => end = start.saturating_add(sum_of(length, bytes)?),
        None if word == "*" => {}
        None => count = Some(sum_of(word, bytes)?),
    }
    Ok(Extent { start, end, count })
}

/// Shows the bytes up to where a part begins in a structure, of which this many bytes are shown. Returns whether the
/// part is there.
///
/// Fails if it begins before what is shown ends, or is outside the structure.
pub(super) fn show_start<S: Show>(
    piece: Piece<'_>,
    shown: usize,
    extent: Extent,
    show: &mut S,
) -> Result<bool, Fault> {
    let length = piece.bytes.len() as u64;
    if extent.is_empty() {
        Ok(false)
    } else if extent.start < shown as u64 {
        Err(Fault::Before(extent.start))
    } else if length < extent.start {
        Err(Fault::Outside(extent.start))
    } else if length < extent.end {
        Err(Fault::Beyond(extent.end))
    } else {
        show_gap(piece, shown, size(extent.start), show);
        Ok(true)
    }
}

/// Shows how many of the elements that are counted aren't there, if some aren't.
pub(super) fn show_missing<S: Show>(offset: u64, extent: Extent, found: u64, show: &mut S) {
    let missing = extent.count.map_or(0, |count| count.saturating_sub(found));
    if missing > 0 {
        show.malformed(offset, Fault::Missing(missing));
    }
}

/// Shows those bytes of a structure that no field covers.
pub(super) fn show_gap<S: Show>(piece: Piece<'_>, start: usize, end: usize, show: &mut S) {
    if let Some(bytes @ [_, ..]) = piece.bytes.get(start..end) {
        return show.bytes(piece.at(start), bytes);
    }
}

/// Shows the field or the fields that begin at an offset of a structure, by the word for the length, and
/// what follows it. Returns up to where the structure is shown then.
pub(super) fn show_fields<S: Show>(
    piece: Piece<'_>,
    shown: usize,
    start: u64,
    is_fixed: bool,
    word: &'static str,
    rest: &'static str,
    show: &mut S,
) -> Result<usize, Fault> {
    let label = piece.blocks.label(rest)?;
    let (length, count) = cut_at(word, '[');
    let is_one = count.is_empty();
    let extent = if is_one {
        Extent {
            start,
            end: field_end(piece.bytes, start, length)?,
            count: None,
        }
    } else {
        list_extent(piece.bytes, start, count)?
    };
    let is_optional = is_fixed && is_one && number_of(length).is_some();
    let is_there = shown as u64 <= start && extent.end <= piece.bytes.len() as u64;
    if is_optional && !is_there || !show_start(piece, shown, extent, show)? {
        return Ok(shown);
    }
    let length = if is_one {
        extent.end.saturating_sub(start)
    } else {
        sum_of(length, piece.bytes)?
    };
    Ok(show_each(piece, extent, size(length), is_one, label, show))
}

/// Where a field ends that is at an offset of a structure, by the word for its length.
fn field_end(bytes: &[u8], start: u64, word: &'static str) -> Result<u64, Fault> {
    match (word, word.strip_prefix('<')) {
        ("*", _) => Ok(bytes.len() as u64),
        ("z", _) => Ok(after_zero(bytes, size(start)) as u64),
        (_, Some(end)) => sum_of(end, bytes),
        _ => Ok(start.saturating_add(sum_of(word, bytes)?)),
    }
}

/// Shows fields of a length, each but a single one with its number, as far as they are there. Returns up to where the
/// structure is shown then.
fn show_each<S: Show>(
    piece: Piece<'_>,
    extent: Extent,
    length: usize,
    is_one: bool,
    label: Label,
    show: &mut S,
) -> usize {
    let (mut shown, mut number) = (size(extent.start), 0u64);
    if length == 0 {
        return shown;
    }
    let all = piece.bytes.get(shown..size(extent.end)).unwrap_or(&[]);
    for bytes in all.chunks(length) {
        if extent.is_more(number) && bytes.len() == length {
            show.field(&Field {
                offset: piece.at(shown),
                bytes,
                number: (!is_one).then_some(number),
                label,
            });
            shown = shown.saturating_add(length);
            number = number.saturating_add(1);
        }
    }
    show_missing(piece.at(shown), extent, number, show);
    shown
}
