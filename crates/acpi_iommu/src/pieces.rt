//! Bytes that are pieces one after the other, each of which has its length in its first bytes: the structures and
//! blocks of a table, the device scopes and entries of one.
ghost use Rattle.std.specs.Prelude.{◌≡◌, ◌&&◌, IfSome, IfNone, [], false, not, None, Ok, Err, if◌then◌else◌};
ghost use Rattle.acpi_base.specs.FromStd.{list_all};
ghost use Rattle.acpi_iommu.specs.Words.{InvalidStructureLength};
ghost use Rattle.acpi_base.specs.Words.{with_entry, is_left};
ghost use Rattle.acpi_iommu.specs.Pieces.{bytes_left, front, has_ended, is_malformed, left, pieces, rest_after, valid_length};

use crate::error::{IommuError, IommuResult};
use std::marker::PhantomData;

/// A kind of pieces.
pub trait PieceKind<'a> {
    ghost use Rattle.std.specs.Prelude.{◌≡◌, ℕ, Bool, List, Option};

    /// A piece.
    type Piece: Drop;

    // The length of the piece at the front of bytes, as these bytes have it.
    ghost size: { List ℕ → Option ℕ };

    // What a piece shows: its bytes.
    ghost shown: { Self.Piece → List ℕ };

    // Whether the pieces in a piece take all bytes that are theirs.
    ghost filled: { List ℕ → Bool };

    /// The length of the piece at the front of bytes, as these bytes have it, or `None` if it is too small.
    fn size_at(bytes: &[u8]) -> Option<usize>
        ensures { result ≡ size bytes.now };

    /// The piece that has these bytes.
    fn piece(bytes: &'a [u8]) -> Self::Piece
        ensures { shown result ≡ bytes.now };

    /// Whether the pieces in a piece take all bytes that are theirs.
    fn is_whole(piece: &Self::Piece) -> bool
        ensures { result ≡ filled (shown piece.now) };
}

/// The length that is in a piece, or `None` if it is less than the least.
pub(crate) fn valid_length(least: usize, size: usize) -> Option<usize>
    ensures { result ≡ valid_length least size }
{
    if least <= size { Some(size) } else { None }
}

/// The length of the piece at the front of bytes, or `None` if no piece begins there.
fn front<'a, K: PieceKind<'a>>(bytes: &[u8]) -> Option<usize>
    ensures { result ≡ front K.size bytes.now }
{
    match K::size_at(bytes) {
        Some(size) if 1 <= size && size <= bytes.len() => Some(size),
        _ => None,
    }
}

/// The bytes of the piece at the front of bytes, and those after it, or `None` if no piece begins there.
#[tactic(auto, using(crate::proofs::Cuts::front_within, crate::proofs::Cuts::pieces_front, crate::proofs::Cuts::pieces_stuck))]
fn split<'a, K: PieceKind<'a>>(bytes: &'a [u8]) -> Option<(&'a [u8], &'a [u8])>
    ensures found { IfSome result (λ x. pieces K.size bytes.now ≡ with_entry x.0.now (pieces K.size x.1.now)) }
    ensures none { IfNone result (pieces K.size bytes.now ≡ ([], bytes.now)) }
{
    let size = front::<K>(bytes)?;
    Some(bytes.split_at(size))
}

/// The pieces of bytes, in order. It ends at the end of the bytes, or where no piece begins.
#[derive(Clone, Copy)]
pub struct PieceIter<'a, K> {
    rest: &'a [u8],
    ended: bool,
    kind: PhantomData<K>,
}

impl<'a, K: PieceKind<'a>> PieceIter<'a, K> {
    /// The pieces of these bytes.
    pub(crate) fn of(bytes: &'a [u8]) -> Self
        ensures items { left K.size result ≡ (pieces K.size bytes.now).0 }
        ensures rest { rest_after K.size result ≡ (pieces K.size bytes.now).1 }
        ensures begun { has_ended result ≡ false }
    {
        PieceIter {
            rest: bytes,
            ended: false,
            kind: PhantomData,
        }
    }

    /// Whether `next` has returned `None` before the end of the bytes, where no piece begins. As long as `next` hasn't
    /// returned `None` it is false.
    pub fn ended_malformed(&self) -> bool
        ensures { result ≡ is_malformed self.now }
    {
        match self.rest {
            [] => false,
            _ => self.ended,
        }
    }

    /// The bytes that it hasn't returned. Once `next` has returned `None` they are the bytes in which no piece begins.
    pub fn rest(&self) -> &'a [u8]
        ensures { result.now ≡ bytes_left self.now }
    {
        self.rest
    }

    /// That nothing was found, once `next` has returned `None`: an error if bytes are left in which no piece begins.
    pub(crate) fn none_found<T>(&self) -> IommuResult<Option<T>>
        ensures { result ≡ (if is_malformed self.now then Err InvalidStructureLength else Ok None) }
    {
        if self.ended_malformed() {
            Err(IommuError::InvalidStructureLength)
        } else {
            Ok(None)
        }
    }

    /// Whether the pieces that are left take all bytes, and the pieces in each all that are theirs.
    pub(crate) fn is_whole(mut self) -> bool
        ensures { result ≡ (not (is_left (rest_after K.size self.entry))
            && list_all K.filled (left K.size self.entry)) }
    {
        let mut all_whole = true;
        while let Some(piece) = self.next() {
            all_whole = all_whole && K::is_whole(&piece);
        }
        !self.ended_malformed() && all_whole
    }
}

impl<'a, K: PieceKind<'a>> Iterator for PieceIter<'a, K> {
    ghost use Rattle.acpi_base.specs.FromStd.{YieldsFirstBy, item_count};
    ghost use Rattle.acpi_iommu.specs.Pieces.{EndsAtRest, left};

    type Item = K::Piece;

    ghost next_gives = { λ s r t. YieldsFirstBy K.shown (left K.size) s r t × EndsAtRest K.size s r t };

    ghost remaining = { item_count (left K.size) };

    fn next(&mut self) -> Option<K::Piece> {
        match split::<K>(self.rest) {
            Some((bytes, others)) => {
                self.rest = others;
                Some(K::piece(bytes))
            }
            None => {
                self.ended = true;
                None
            }
        }
    }
}
