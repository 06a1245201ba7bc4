//! The calls of the library for C about devices, power, domains and IOMMUs, each by the table that describes it, and
//! what these tables are to contain. `acpi_c_lib` has the rules that all calls share.
#![tactic(auto)]

pub mod console;
pub mod devices;
pub mod fixed;
pub mod iommu;
mod known;
pub mod numa;
pub mod pci;
pub mod power;
pub mod records;
pub mod writing;
pub mod written_records;
