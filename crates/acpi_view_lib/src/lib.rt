//! The ACPI tables in a file of memory as lines, and the command that requests them.
#![tactic(auto)]

pub mod arguments;
pub mod lines;
pub mod run;
