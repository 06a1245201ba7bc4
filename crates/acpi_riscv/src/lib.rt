//! The interrupt controllers and harts of a RISC-V machine, by the entries of types 0x18 to 0x1b of its MADT.
//!
//! Section numbers are the ACPI Specification's, version 6.6.
#![tactic(auto)]

mod entry;
mod walk;

pub use entry::{Aplic, Imsic, Plic, Rintc, RiscvEntry};
pub use walk::RiscvEntryIter;
