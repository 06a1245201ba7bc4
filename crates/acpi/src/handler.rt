//! Handlers, which map physical memory, and records mapped in it.

mod region;
mod regions;

pub use acpi_base::guarded::Guarded;
pub use acpi_base::handler::{AcpiHandler, Lender, PhysicalRecord};
pub use acpi_base::mapping::PhysicalMapping;
pub use region::{MappedRegion, RegionError};
pub use regions::MappedRegions;
