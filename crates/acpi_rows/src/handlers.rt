//! Handlers over another handler.

use crate::out::Out;
use acpi::{AcpiHandler, AcpiResult};

/// A handler that maps exactly the number of bytes that is requested, of what another one maps.
#[derive(Drop)]
pub(crate) struct Exact<'a, H: AcpiHandler> {
    pub(crate) inner: &'a H,
}

impl<'a, H: AcpiHandler> AcpiHandler for Exact<'a, H> {
    ghost memory = { λ e. H.memory e.inner.now };

    #[tactic(auto, using(acpi_bytes::proofs::LentRanges::at_front_of))]
    fn map_physical_region(&self, address: u64, size: usize) -> AcpiResult<&[u8]> {
        let lent = self.inner.map_physical_region(address, size)?;
        Ok(&lent[..size])
    }

    fn unmap_physical_region(&self, address: u64, region_length: usize, mapped_length: usize) {
        self.inner
            .unmap_physical_region(address, region_length, mapped_length);
    }

    ghost regions = { λ e. H.regions e.inner.now };
}

/// A handler that prints the requests to another one, and the notices that it gets.
#[derive(Drop)]
pub(crate) struct Printing<'a, H: AcpiHandler> {
    pub(crate) inner: &'a H,
    pub(crate) out: Out<'a>,
}

impl<'a, H: AcpiHandler> AcpiHandler for Printing<'a, H> {
    ghost memory = { λ r. H.memory r.inner.now };

    fn map_physical_region(&self, address: u64, size: usize) -> AcpiResult<&[u8]> {
        let granted = self.inner.map_physical_region(address, size);
        match &granted {
            Ok(bytes) => self.out.event('+', address, size, bytes.len()),
            Err(_) => self.out.event('!', address, size, 0),
        }
        granted
    }

    fn unmap_physical_region(&self, address: u64, region_length: usize, mapped_length: usize) {
        self.out.event('-', address, region_length, mapped_length);
        self.inner
            .unmap_physical_region(address, region_length, mapped_length);
    }

    ghost regions = { λ r. H.regions r.inner.now };
}
