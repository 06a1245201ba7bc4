//! The tables MADT (section 5.2.12), MCFG and SPCR (section 5.2.6 reserves their signatures), whose mappings
//! have functions of their own.

pub mod madt;
pub mod mcfg;
pub mod spcr;
