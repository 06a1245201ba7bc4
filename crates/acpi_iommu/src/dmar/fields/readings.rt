//! Made by scripts/readings: records, as their definitions in specs/ read them from bytes.
ghost use Rattle.std.specs.Prelude.{◌≡◌};
ghost use Rattle.acpi_iommu.specs.Dmar.{andd_at, atsr_at, drhd_at, rhsa_at, rmrr_at, satc_at, sidp_at};

use super::{Andd, Atsr, Drhd, Rhsa, Rmrr, Satc, Sidp, segment_of};
use acpi_base::bytes::field;

pub(crate) fn drhd_at(bytes: &[u8]) -> Drhd
    ensures { result ≡ drhd_at bytes.now }
{
    Drhd {
        flags: field(bytes, 4, 1) as u8, // Flags
        size: field(bytes, 5, 1) as u8, // Size
        segment: segment_of(bytes), // Segment Number
        register_base: field(bytes, 8, 8), // Register Base Address
    }
}

pub(crate) fn rmrr_at(bytes: &[u8]) -> Rmrr
    ensures { result ≡ rmrr_at bytes.now }
{
    Rmrr {
        segment: segment_of(bytes), // Segment Number
        base: field(bytes, 8, 8), // Reserved Memory Region Base Address
        limit: field(bytes, 16, 8), // Reserved Memory Region Limit Address
    }
}

pub(crate) fn atsr_at(bytes: &[u8]) -> Atsr
    ensures { result ≡ atsr_at bytes.now }
{
    Atsr {
        flags: field(bytes, 4, 1) as u8, // Flags
        segment: segment_of(bytes), // Segment Number
    }
}

pub(crate) fn rhsa_at(bytes: &[u8]) -> Rhsa
    ensures { result ≡ rhsa_at bytes.now }
{
    Rhsa {
        register_base: field(bytes, 8, 8), // Register Base Address
        domain: field(bytes, 16, 4) as u32, // Proximity Domain
    }
}

pub(crate) fn andd_at(bytes: &[u8]) -> Andd
    ensures { result ≡ andd_at bytes.now }
{
    Andd {
        device_number: field(bytes, 7, 1) as u8, // ACPI Device Number
    }
}

pub(crate) fn satc_at(bytes: &[u8]) -> Satc
    ensures { result ≡ satc_at bytes.now }
{
    Satc {
        flags: field(bytes, 4, 1) as u8, // Flags
        segment: segment_of(bytes), // Segment Number
    }
}

pub(crate) fn sidp_at(bytes: &[u8]) -> Sidp
    ensures { result ≡ sidp_at bytes.now }
{
    Sidp {
        segment: segment_of(bytes), // Segment Number
    }
}
