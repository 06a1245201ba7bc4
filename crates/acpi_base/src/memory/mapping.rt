//! Records in mapped memory.
ghost use Rattle.std.specs.Prelude.{◌≡◌, ◌≤◌, length};
ghost use Rattle.acpi_base.specs.FromStd.{Coded-set};
ghost use Rattle.acpi_base.specs.Claim.{shown_by};

use crate::error::AcpiResult;
use crate::memory::claim::Claim;
use crate::memory::handler::{Lender, PhysicalRecord};
use std::ops::Deref;

/// A record in mapped memory: its bytes, and the value that they mean. The bytes stay mapped until the mapping is
/// dropped, which calls the handler's notice, `unmap_physical_region`.
pub struct PhysicalMapping<'h, H: Lender, T: PhysicalRecord> {
    claim: Claim<'h, H>,
    value: T,
    ghost least: { T.MIN_LENGTH ≤ length (shown_by claim) },
    ghost read: { value ≡ T.reading (shown_by claim) } by { Coded-set T.code _ _ },
}

impl<'h, H: Lender, T: PhysicalRecord> PhysicalMapping<'h, H, T> {
    ghost use Rattle.std.specs.Prelude.{◌+◌, ◌^◌, ◌<◌, ◌∷◌, [], true, take, IfOk, Some};
    ghost use Rattle.acpi_base.specs.Claim.{all_of, claimed_at, claimed_from};
    ghost use Rattle.acpi_base.specs.Mapping.{start_of, bytes_of, lent_of, mapped_of, handler_of};
    ghost use Rattle.acpi_bytes.specs.Memory.{at};
    ghost use Rattle.acpi_bytes.specs.Steps.{Gives, lent};
    ghost use Rattle.acpi_base.specs.Ranges.{Footprint};

    /// The mapping of the first `region_length` of these bytes, at least `T::MIN_LENGTH` and at most all, which are
    /// from the physical address `physical_start` on. It reads the record from them. The bytes may come from
    /// anywhere; when the mapping is dropped, the handler gets the notice.
    pub fn new(physical_start: u64, bytes: &'h [u8], region_length: usize, handler: &'h H) -> Self
        requires fits { region_length ≤ length bytes.now }
        requires least { T.MIN_LENGTH ≤ region_length }
        ensures start { start_of result ≡ physical_start }
        ensures bytes { bytes_of result ≡ take region_length bytes.now }
        ensures lent { lent_of result ≡ bytes.now }
        ensures handler { handler_of result ≡ handler.now }
    {
        PhysicalMapping::of_claim(Claim::new(physical_start, bytes, region_length, handler))
    }

    /// The mapping of the bytes that a claim shows.
    pub(crate) fn of_claim(claim: Claim<'h, H>) -> Self
        requires { T.MIN_LENGTH ≤ length (shown_by claim) }
        ensures start { start_of result ≡ claimed_at claim.entry }
        ensures bytes { bytes_of result ≡ shown_by claim.entry }
        ensures lent { lent_of result ≡ all_of claim.entry }
        ensures handler { handler_of result ≡ claimed_from claim.entry }
    {
        let value = T::read(claim.shown());
        PhysicalMapping { claim, value }
    }

    /// The mapping of the `size` bytes, at least one and at least `T::MIN_LENGTH`, at a physical address, as the
    /// handler maps them.
    ///
    /// Fails with `MapFailed` if they aren't all inside one region.
    #[tactic(auto, using(crate::proofs::OwnTable::same_lent))]
    pub fn map(handler: &'h H, address: u64, size: usize) -> AcpiResult<Self>
        requires some { 0 < size }
        requires asked { H.may handler.now address size ≡ true }
        requires least { T.MIN_LENGTH ≤ size }
        ensures start { IfOk result (λ m. start_of m ≡ address) }
        ensures handler { IfOk result (λ m. handler_of m ≡ handler.now) }
        ensures length { IfOk result (λ m. length (bytes_of m) ≡ size) }
        ensures ends { IfOk result (λ m. start_of m + length (bytes_of m) < 2 ^ 64) }
        ensures bytes { Gives (λ m. bytes_of m) result (lent (H.memory handler.now) address size) }
        // However many bytes are mapped, all of them are the memory's.
        ensures lent { IfOk result (λ m. at (H.memory handler.now) address (mapped_of m)
            ≡ Some (lent_of m)) }
        // It depends on these bytes alone.
        ensures footprint { Footprint (H.memory handler.now) ((address, size) ∷ []) (λ n. lent n address size)
            (Gives (λ m. bytes_of m) result) }
    {
        let claim = Claim::request(handler, address, size)?;
        // A `return`, so that the lemma is tried for this value alone.
        #[tactic(auto, using(acpi_bytes::proofs::LentRanges::lent_ends, crate::proofs::OwnTable::same_lent))]
        return Ok(PhysicalMapping::of_claim(claim));
    }

    /// The physical address of the record's first byte.
    pub fn physical_start(&self) -> u64
        ensures { result ≡ start_of self.now }
    {
        self.claim.start()
    }

    /// How many bytes the record has: as many as `bytes`.
    pub fn region_length(&self) -> usize
        ensures { result ≡ length (bytes_of self.now) }
    {
        self.claim.shown().len()
    }

    /// How many bytes are mapped: at least `region_length`, and more as the handler chose.
    pub fn mapped_length(&self) -> usize
        ensures { result ≡ mapped_of self.now }
    {
        self.claim.lent().len()
    }

    /// The record's bytes: the first `region_length` of the mapped ones.
    pub fn bytes(&self) -> &[u8]
        ensures value { result.now ≡ bytes_of self.now }
        ensures least { T.MIN_LENGTH ≤ length result.now }
    {
        self.claim.shown()
    }

    /// All bytes that are mapped from `physical_start` on: the record's, and as many
    /// after them as the handler chose. A search that looks at more than one record there uses them.
    pub fn lent_bytes(&self) -> &[u8]
        ensures { result.now ≡ lent_of self.now }
    {
        self.claim.lent()
    }

    /// The handler that gets the notice when the mapping is dropped.
    pub fn handler(&self) -> &'h H
        ensures { result.now ≡ handler_of self.now }
    {
        self.claim.handler()
    }

    /// The record that its bytes mean.
    pub fn get(&self) -> &T
        ensures { result.now ≡ T.reading (bytes_of self.now) }
    {
        &self.value
    }
}

/// The record that its bytes mean.
impl<'h, H: Lender, T: PhysicalRecord> Deref for PhysicalMapping<'h, H, T> {
    ghost use Rattle.acpi_base.specs.Mapping.{bytes_of};

    type Target = T;

    ghost deref_gives = { λ m r. r ≡ T.reading (bytes_of m) };

    fn deref(&self) -> &T {
        &self.value
    }
}

impl<'h, H: Lender, T: PhysicalRecord> Drop for PhysicalMapping<'h, H, T> {
    fn drop(self) {
        let PhysicalMapping { claim, value: _ } = self;
        // Not `end`, which takes the claim: in Rust a drop moves nothing out of its value.
        claim.notice();
        let Claim {
            start: _,
            lent: _,
            region_length: _,
            handler: _,
        } = claim;
    }
}
