//! A lender of which only some ranges may be requested.
ghost use Rattle.std.specs.Prelude.{◌&&◌, ◌≡◌};
ghost use Rattle.acpi_base.specs.Words.{is_listed, guarded_by, listed_by};

use crate::error::AcpiResult;
use crate::memory::handler::Lender;

/// A lender over another one, of which it requests what is requested of it, and nothing else. Only the ranges
/// of a list may be requested of it, each a physical address and a number of bytes, as far as they may be
/// requested of the other one. Of a handler any range may be requested.
///
/// Nothing is tested when it runs: a call over it is proved only if it requests no range that isn't listed.
#[derive(Drop)]
pub struct Guarded<'h, H: Lender> {
    handler: &'h H,
    ranges: &'h [(u64, usize)],
}

impl<'h, H: Lender> Guarded<'h, H> {
    /// A lender over another one, or over a handler, of which these ranges alone may be requested: physical
    /// addresses, and the number of bytes from each on.
    pub fn new(handler: &'h H, ranges: &'h [(u64, usize)]) -> Self
        ensures handler { guarded_by result ≡ handler.now }
        ensures ranges { listed_by result ≡ ranges.now }
    {
        Guarded { handler, ranges }
    }
}

impl<H: Lender> Lender for Guarded<'_, H> {
    ghost memory = { λ g. H.memory g.handler.now };

    ghost may = { λ g a n. is_listed g.ranges.now a n && H.may g.handler.now a n };

    fn lend(&self, address: u64, size: usize) -> AcpiResult<&[u8]> {
        self.handler.lend(address, size)
    }

    fn end_loan(&self, address: u64, region_length: usize, mapped_length: usize) {
        self.handler.end_loan(address, region_length, mapped_length);
    }

    ghost regions = { λ g. H.regions g.handler.now };
}
