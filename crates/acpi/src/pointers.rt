//! The pointers that a root table lists.
ghost use Rattle.std.specs.Prelude.{◌≤◌, ◌≡◌, [], drop, slice_get};
ghost use Rattle.acpi_base.specs.FromStd.{YieldsFirst, item_count};
ghost use Rattle.acpi_base.specs.Words.{field_of};

use acpi_base::bytes::{field, skip};

/// The pointers that bytes encode, in order; a short remainder is one more pointer, filled up with zeros.
#[derive(Drop)]
pub struct Pointers<'t> {
    width: usize,
    rest: &'t [u8],
    ghost some: { 1 ≤ width },
    ghost few: { width ≤ 8 },
}

impl<'t> Pointers<'t> {
    ghost use Rattle.acpi.specs.Pointers.{pointers_left};
    ghost use Rattle.acpi.specs.Root.{pointers};

    /// The pointers that bytes encode, each in a number of bytes.
    pub fn new(width: usize, rest: &'t [u8]) -> Self
        requires some { 1 ≤ width }
        requires few { width ≤ 8 }
        ensures { pointers_left result ≡ pointers width rest.now }
    {
        Pointers { width, rest }
    }

    /// The pointer that comes next. Both widths that root tables have are named, so that each is
    /// read at once.
    #[inline(always)]
    fn first(&self) -> u64
        ensures { result ≡ field_of self.now.rest.now 0 self.now.width }
    {
        match self.width {
            8 => field(self.rest, 0, 8),
            4 => field(self.rest, 0, 4),
            width => field(self.rest, 0, width),
        }
    }

    /// The pointer that comes next, if one does. It stays to come.
    #[tactic(auto, using(crate::proofs::Spelled::pointers_step, crate::proofs::Spelled::pointers_none))]
    pub(crate) fn peek(&self) -> Option<u64>
        ensures { result ≡ slice_get (pointers_left self.now) 0 }
    {
        if self.rest.is_empty() {
            return None;
        }
        Some(self.first())
    }

    /// Leaves those after the one that comes next.
    #[tactic(auto, using(crate::proofs::Spelled::pointers_after))]
    pub(crate) fn pass(&mut self)
        ensures { pointers_left self.new ≡ drop 1 (pointers_left self.old) }
    {
        self.rest = skip(self.rest, self.width);
    }

    /// Leaves no pointer to come.
    #[tactic(auto, using(crate::proofs::Spelled::pointers_none))]
    pub(crate) fn end(&mut self)
        ensures { pointers_left self.new ≡ [] }
    {
        self.rest = &[];
    }
}

impl Iterator for Pointers<'_> {
    ghost use Rattle.acpi.specs.Pointers.{pointers_left};

    type Item = u64;

    ghost next_gives = { YieldsFirst (λ s. pointers_left s) };

    ghost remaining = { item_count (λ s. pointers_left s) };

    #[inline(always)]
    #[tactic(auto, using(crate::proofs::Spelled::pointers_step, crate::proofs::Spelled::pointers_none))]
    fn next(&mut self) -> Option<u64> {
        if self.rest.is_empty() {
            return None;
        }
        let first = self.first();
        self.rest = skip(self.rest, self.width);
        Some(first)
    }
}
