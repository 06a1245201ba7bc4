//! Claims: bytes that a handler mapped, until its notice.
ghost use Rattle.std.specs.Prelude.{◌≤◌, length};

use crate::error::AcpiResult;
use crate::memory::handler::Lender;

/// Bytes that a handler mapped, and how many of them are shown. A claim is no `Drop`, so the compiler rejects a path
/// that lets one go out of scope or ends one twice. Only `end`, `widen` and the drop of a mapping take one apart. The
/// notice has the range that was granted.
pub(crate) struct Claim<'h, H: Lender> {
    pub(super) start: u64,
    pub(super) lent: &'h [u8],
    pub(super) region_length: usize,
    pub(super) handler: &'h H,
    ghost fits: { region_length ≤ length lent.now },
}

impl<'h, H: Lender> Claim<'h, H> {
    ghost use Rattle.std.specs.Prelude.{◌≡◌, ◌<◌, true, take, IfOk, IsOk};
    ghost use Rattle.acpi_base.specs.Claim.{IsLentOf, all_of, claimed_at, claimed_from, shown_by};
    ghost use Rattle.acpi_bytes.specs.Steps.{Gives, lent};

    /// A claim of bytes that are mapped already, of which the first `region_length` are shown.
    pub(crate) fn new(start: u64, lent: &'h [u8], region_length: usize, handler: &'h H) -> Self
        requires { region_length ≤ length lent.now }
        ensures start { claimed_at result ≡ start }
        ensures lent { all_of result ≡ lent.now }
        ensures shown { shown_by result ≡ take region_length lent.now }
        ensures handler { claimed_from result ≡ handler.now }
    {
        Claim {
            start,
            lent,
            region_length,
            handler,
        }
    }

    /// A claim of the bytes that the handler maps at an address, of which the first `size` are shown.
    #[tactic(auto, using(acpi_bytes::proofs::LentRanges::lent_front, acpi_bytes::proofs::LentRanges::lent_none))]
    pub(crate) fn request(handler: &'h H, address: u64, size: usize) -> AcpiResult<Self>
        requires some { 0 < size }
        requires asked { H.may handler.now address size ≡ true }
        ensures start { IfOk result (λ c. claimed_at c ≡ address) }
        ensures handler { IfOk result (λ c. claimed_from c ≡ handler.now) }
        ensures size { IfOk result (λ c. length (shown_by c) ≡ size) }
        ensures shown { Gives (λ c. shown_by c) result (lent (H.memory handler.now) address size) }
        ensures all { IfOk result (λ c. IsLentOf (H.memory handler.now) c) }
    {
        let granted = handler.lend(address, size)?;
        Ok(Claim::new(address, granted, size, handler))
    }

    /// A claim that shows the `size` bytes from this one's start on: of the bytes that are mapped already, if
    /// these are as many, or else requested anew, after the notice for what was mapped.
    #[tactic(auto, using(acpi_bytes::proofs::LentRanges::lent_front))]
    pub(crate) fn widen(self, size: usize) -> AcpiResult<Self>
        requires some { 0 < size }
        requires lent { IsLentOf (H.memory (claimed_from self)) self }
        requires asked { H.may (claimed_from self) (claimed_at self) size ≡ true }
        ensures start { IfOk result (λ c. claimed_at c ≡ claimed_at self.entry) }
        ensures handler { IfOk result (λ c. claimed_from c ≡ claimed_from self.entry) }
        ensures size { IfOk result (λ c. length (shown_by c) ≡ size) }
        ensures shown { let m = H.memory (claimed_from self.entry) in
            Gives (λ c. shown_by c) result (lent m (claimed_at self.entry) size) }
        ensures all { IfOk result (λ c. IsLentOf (H.memory (claimed_from self.entry)) c) }
        // Bytes that are enough stay mapped as they are.
        ensures enough { size ≤ length (all_of self.entry) → IsOk result }
        ensures kept { size ≤ length (all_of self.entry)
            → IfOk result (λ c. all_of c ≡ all_of self.entry) }
    {
        if size <= self.lent.len() {
            let Claim {
                start,
                lent,
                region_length: _,
                handler,
            } = self;
            return Ok(Claim::new(start, lent, size, handler));
        }
        let handler = self.handler;
        let start = self.start;
        self.end();
        Claim::request(handler, start, size)
    }

    pub(crate) fn start(&self) -> u64
        ensures { result ≡ claimed_at self.now }
    {
        self.start
    }

    /// All the mapped bytes.
    pub(crate) fn lent(&self) -> &[u8]
        ensures { result.now ≡ all_of self.now }
    {
        self.lent
    }

    /// The bytes that are shown: the first `region_length` of the mapped ones.
    pub(crate) fn shown(&self) -> &[u8]
        ensures { result.now ≡ shown_by self.now }
    {
        &self.lent[..self.region_length]
    }

    pub(crate) fn handler(&self) -> &'h H
        ensures { result.now ≡ claimed_from self.now }
    {
        self.handler
    }

    /// Calls the handler's notice for what was mapped.
    pub(crate) fn notice(&self) {
        self.handler
            .end_loan(self.start, self.region_length, self.lent.len());
    }

    /// Calls the handler's notice for what was mapped, and takes the claim apart.
    pub(crate) fn end(self) {
        self.notice();
        let Claim {
            start: _,
            lent: _,
            region_length: _,
            handler: _,
        } = self;
    }
}
