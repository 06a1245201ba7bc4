//! Physical memory from a file of bytes, as a handler that maps it, and files of memory that are written
//! with given tables.
#![tactic(auto)]

mod error;
pub mod laws;
pub mod sums;
pub mod write;

pub use acpi_image_reader::{ImageError, MemoryImage, Record, image, reader};
pub use write::{PlacedTable, WriteError, write_image};
