//! Physical memory: handlers that map it, claims of mapped bytes until their notice, and records in it.

pub(crate) mod claim;
pub mod guarded;
pub mod mapping;

pub use acpi_bytes::handler;
