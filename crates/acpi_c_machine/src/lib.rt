//! The calls of the library for C that write tables, and all tables of a machine. `acpi_c_lib` has the rules that all
//! calls share.
#![tactic(auto)]

pub mod machine;
pub mod writing;
pub mod written_records;
