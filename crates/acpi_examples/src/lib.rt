//! Callers of the library, proved: the least one (`caller`), one that prints a machine's processors
//! (`processors`), one with a table type of its own (`table_type`), one with a lookup that may request named
//! ranges alone (`guarded`), one that resolves interrupts and PCI functions (`resolved`), a boot loader that
//! reserves the tables' memory (`reserved`), a writer of a guest's tables (`writer`), and one of the processors of its
//! machine (`machine`). The documents show these files.
#![tactic(auto)]

pub mod caller;
pub mod guarded;
pub mod machine;
pub mod processors;
pub mod reserved;
pub mod resolved;
pub mod table_type;
#[cfg(test)]
mod tests;
pub mod writer;
