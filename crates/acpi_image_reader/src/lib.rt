//! Physical memory from a file of bytes, as a handler that maps it.
#![tactic(auto)]

mod error;
pub mod image;
pub mod range;
pub mod reader;
mod record;
mod record_list;
pub mod start_index;

pub use image::{ImageError, MemoryImage};
pub use record::Record;
