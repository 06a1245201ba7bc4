//! The calls of the library for C about processors, interrupts and timers, by the MADT and the GTDT (sections 5.2.12
//! and 5.2.24), and what these tables are to contain. `acpi_c_lib` has the rules that all calls share.
#![tactic(auto)]

pub mod apics;
pub mod arm;
mod known;
pub mod laws;
pub mod madt_faults;
pub mod riscv;
pub mod routes;
pub mod writing;
pub mod written_records;
