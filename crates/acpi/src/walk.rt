//! What the pointers of a root table lead to, without what isn't valid.
ghost use Rattle.std.specs.Prelude.{◌≡◌, ◌∷◌, [], IfSome, MatchOption, filter_map, flat_map, ℕ, Option};
ghost use Rattle.acpi_base.specs.FromStd.{YieldsFirst};
ghost use Rattle.acpi_base.specs.Words.{Allows, Ranges, Memory};
ghost use Rattle.acpi.specs.Pointers.{pointers_left};

use crate::pointers::Pointers;
use acpi_base::Lender;

/// What a walk along pointers looks for where each leads, as the header of a table.
pub(crate) trait Asked {
    // The ranges of a memory that are asked for to look for it at an address, by the bits of `accept`.
    ghost ranges: { ℕ → Memory → ℕ → Ranges };
}

/// The pointer that comes next, which is passed: what it leads to may be asked for.
#[inline(always)]
pub(crate) fn next_asked<H: Lender, M: Asked>(
    handler: &H,
    pointers: &mut Pointers<'_>,
    accept: u32,
) -> Option<u64>
    requires { Allows (H.may handler.now)
        (flat_map (M.ranges accept (H.memory handler.now)) (pointers_left pointers.old)) }
    ensures here { IfSome result (λ p. Allows (H.may handler.now) (M.ranges accept (H.memory handler.now) p)) }
    ensures left { Allows (H.may handler.now)
        (flat_map (M.ranges accept (H.memory handler.now)) (pointers_left pointers.new)) }
    ensures steps { YieldsFirst (λ s. pointers_left s) pointers.old result pointers.new }
{
    pointers.next()
}

/// What a walk finds wherever a pointer leads to something that is accepted.
pub(crate) trait Found: Asked + Sized {
    // What is there, if the bits of `accept` accept it.
    ghost found: { ℕ → Memory → ℕ → Option Self };

    /// What is at an address, if the bits of `accept` accept it.
    fn at<H: Lender>(handler: &H, address: u64, accept: u32) -> Option<Self>
        requires { Allows (H.may handler.now) (Self.ranges accept (H.memory handler.now) address) }
        ensures { result ≡ found accept (H.memory handler.now) address };
}

/// What the first pointer leads to that leads to something that is accepted. It is passed, with those before it.
#[inline(always)]
pub(crate) fn next_found<H: Lender, M: Found>(
    handler: &H,
    pointers: &mut Pointers<'_>,
    accept: u32,
) -> Option<M>
    requires { Allows (H.may handler.now)
        (flat_map (M.ranges accept (H.memory handler.now)) (pointers_left pointers.old)) }
    ensures asked { Allows (H.may handler.now)
        (flat_map (M.ranges accept (H.memory handler.now)) (pointers_left pointers.new)) }
    ensures found { MatchOption result
        ((filter_map (M.found accept (H.memory handler.now)) (pointers_left pointers.old) ≡ [])
        × (pointers_left pointers.new ≡ []))
        (λ x. filter_map (M.found accept (H.memory handler.now)) (pointers_left pointers.old)
        ≡ x ∷ filter_map (M.found accept (H.memory handler.now)) (pointers_left pointers.new)) }
{
    while let Some(address) = next_asked::<H, M>(handler, pointers, accept) {
        if let Some(item) = M::at(handler, address, accept) {
            return Some(item);
        }
    }
    None
}
